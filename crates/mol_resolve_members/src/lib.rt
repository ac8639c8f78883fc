//! The members of source files: their order, their identities, their types, and the look-ups that find them.
#![tactic(auto)]

mod found;
mod members;
mod numbers;
mod places;
mod sources;

pub use found::{Finder, FoundConstructor, FoundField, FoundMethod, OnValue};
pub use members::{MemberRow, Members, rows_viewed};
pub use numbers::Numbers;
pub use places::{Listed, Places, by_path, list_members};
pub use sources::sources_viewed;
