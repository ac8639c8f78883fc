//! The one text of each tree: source files, bodies and types.
#![tactic(auto)]

mod binding;
mod expr;
mod first;
mod page;
mod printing;
mod stmt;
mod types;
mod unit;

pub use printing::{print, print_body, print_type};
