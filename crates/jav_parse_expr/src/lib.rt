//! Expressions: the rules as functions in `specs`, and the code that follows them.
#![tactic(auto)]

pub mod action;
pub mod cast;
pub mod creation;
pub mod expr;
pub mod lists;
pub mod primary;
