//! Bodies as lists of words: reading and writing them.
#![tactic(auto)]

mod branches;
mod lists;
mod loop_header;
mod read;
mod simple;
mod stmt;
mod stmt_head;
mod take;
mod variables;
mod write_bodies;

pub use read::read_body;
pub use write_bodies::write_body;
