//! The identities and the faults of programs, as reports write them.
#![tactic(auto)]

mod addresses;
mod fault_text;
mod ids;
mod labels;
mod slots;

pub use fault_text::{fault_line, push_fault};
pub use ids::id_lines;
pub use labels::Labels;
