//! The faults for which source files are no program, those that a member has beside others, and which of several is reported.
#![tactic(auto)]

mod beside;
mod fault;
mod first_fault;
mod first_faults;
mod kind;
mod laws;

pub use beside::{Faulty, beside_noted};
pub use fault::{FaultPlace, ResolveFault};
pub use first_fault::FirstFault;
pub use first_faults::first_by_path;
pub use kind::FaultKind;
pub use laws::{first_kept, kept_alike};
