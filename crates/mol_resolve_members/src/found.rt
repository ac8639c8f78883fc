//! What the look-ups of members in source files find: with the types of what is found, and with its identities in a base.

mod finder;
mod found_member;
mod on_value;

pub use finder::Finder;
pub use found_member::{FoundConstructor, FoundField, FoundMethod};
pub use on_value::OnValue;
