//! What is asked of whole tables beside the tables themselves: whether two are the same, and tables with the identities of a
//! base.
#![tactic(auto)]

mod classes;
mod heights;
mod names;
mod order;
mod paths;
mod rank;
mod renumbered;
mod sameness;
mod search;
mod tops;

pub use renumbered::renumber;
pub use sameness::same;
