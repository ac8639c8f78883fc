//! The conflicts of two logs, as reports write them.
#![tactic(auto)]

mod conflicts;
mod pieces;

pub use conflicts::conflict_lines;
