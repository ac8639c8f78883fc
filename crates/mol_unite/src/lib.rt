//! What two logs over one base leave together.
#![tactic(auto)]

mod order;
mod uniting;

pub use order::comes_first;
pub use uniting::{unite, unite_onto};
