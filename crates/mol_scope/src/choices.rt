//! The static type of a choice between two values of a program.

mod choice;

pub use choice::common;
