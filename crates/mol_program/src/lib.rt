//! Source files as a program, or what is wrong with them first.
#![tactic(auto)]

mod fault;
mod refusing;
mod units;

pub use fault::{ReadFault, SourceFault};
pub use units::read_program;
