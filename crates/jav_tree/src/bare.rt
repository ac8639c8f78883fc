//! Trees without their parentheses.
mod expr;
mod stmt;
mod unit;

use expr::{bare_all, bare_maybe};
