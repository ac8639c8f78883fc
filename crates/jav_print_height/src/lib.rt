//! How high trees are as they are printed: without the parentheses that stand in them, and with those that the layout puts.
#![tactic(auto)]

mod expr;
mod measure;
mod operator;
mod stmt;
mod unit;

pub use unit::printed_height;
