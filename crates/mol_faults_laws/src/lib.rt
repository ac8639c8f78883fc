//! Laws of the faults of programs: each program has a first fault or is clean; programs that are the same are clean together; and a fault
//! goes by the cells that it rests on.
//!
//! The calls here compute nothing: they carry laws of the definitions of `mol_spell_rules` and `mol_faults`.
#![tactic(auto)]

ghost use Rattle.mol_faults_laws.specs.Laws.{FirstFaultTold};

mod sameness;
mod support;

pub use sameness::same_are_clean;
pub use support::faults_supported;

/// The law of the first fault: each program is clean or has a first fault, and not both; and it has no two of these.
#[tactic(auto, using(crate::proofs::EveryFault::first_fault_told))]
pub fn first_fault_told()
    ensures { FirstFaultTold }
{}
