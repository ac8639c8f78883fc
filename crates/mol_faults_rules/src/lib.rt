//! Faults of a program: for what it does not mean the same once it is printed. And conflicts: for what two logs do not go together.
//!
//! Each pass over a program finds the faults of one kind. Beside copies the calls here compute nothing: each carries a law of faults.
#![tactic(auto)]

ghost use Rattle.mol_faults_rules.specs.OfKind.{FaultsByKind};

mod conflict;
mod fault;
mod met;
mod target;

pub use conflict::{Conflict, ConflictKind};
pub use fault::Fault;
pub use met::Met;
pub use target::Target;

/// The law of kinds: lists of the faults of each kind, one after another in the order of the kinds, are all faults of a program in order.
#[tactic(auto, using(crate::proofs::ByKind::faults_by_kind))]
pub fn faults_by_kind()
    ensures { FaultsByKind }
{}
