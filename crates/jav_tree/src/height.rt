//! How high trees are.
mod expr;
mod stmt;
mod unit;

use expr::{above, height_maybe, tallest};
