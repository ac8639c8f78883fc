//! The faults of a program: for what it does not mean the same once it is printed, and the cells that each rests on.
#![tactic(auto)]

mod all;
mod first;
mod names;
mod supports;

pub use all::faults;
pub use first::{first_fault, first_fault_of_tidied};
pub use mol_faults_rules::{Conflict, ConflictKind, Fault, Target};
pub use supports::{Supports, support};
