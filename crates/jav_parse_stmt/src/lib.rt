//! Statements: the rules as functions in `specs`, and the code that follows them.
#![tactic(auto)]

pub mod flow;
pub mod local;
pub mod loops;
pub mod simple;
pub mod stmt;
pub mod stmt_tall;
