//! What source files mean: the program that they are, with each name in them by identity, or the first fault for which they are none;
//! with the entities of each member, and of the files in their order.
#![tactic(auto)]

mod entities;
mod file_members;
mod file_reader;
mod first_met;
mod member_headers;
mod members;
mod resolving;
mod superclass;

pub use file_members::MemberReader;
pub use jav_scope::SourceUnit;
pub use member_headers::{read_params, read_tree};
pub use mol_resolve_faults::{FaultPlace, ResolveFault};
pub use mol_table::Table;
pub use resolving::{resolve, resolve_units};
