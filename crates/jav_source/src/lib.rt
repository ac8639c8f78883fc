//! Source files: the tree of each, or what is wrong with its text; and trees as they read once they are printed.
#![tactic(auto)]

mod again;
mod fault;
mod source;

pub use again::{Unread, read_again};
pub use fault::{TextFault, UnitFault};
pub use source::{line_and_column_of, unit_of};
