//! The pair conflicts of two logs over one base: where entries of both do not go together.
#![tactic(auto)]

mod conflicts;
mod gone;
mod leaving;
mod living;
mod made;
mod pair;
mod pairs;
mod stamps;
mod twice;

pub use conflicts::{pair_conflicts, pairs_between};
