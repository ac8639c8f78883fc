//! The merge of two logs over one base: their conflicts, or the files and the log of what both leave together.
#![tactic(auto)]

mod bads;
mod found;
mod limits;
mod merged_log;
mod merging;
mod outcome;
mod tags;

pub use found::{Found, conflicts_of};
pub use merged_log::merged_replays;
pub use merging::merge;
pub use outcome::{Group, MergeFault, Merged, Outcome};
