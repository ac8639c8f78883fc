//! Faults of values: cells that refer to what is gone, and names of locals that are declared twice.
#![tactic(auto)]

mod local_faults;
mod missing_faults;

pub use local_faults::local_clash;
pub use missing_faults::missing;
