//! What names mean in the members of source files.
#![tactic(auto)]

mod accesses;
mod chains;
mod lone_names;
mod names;
mod type_trees;

pub use accesses::{
    call_here, call_of, call_through, created, field_of, static_field, super_call, super_init,
};
pub use chains::{Parameter, chain_of, place_of};
pub use lone_names::{Finder, name_alone, name_before};
pub use names::MemberNames;
pub use type_trees::{Numbers, read_type};
