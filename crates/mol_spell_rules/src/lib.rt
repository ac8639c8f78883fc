//! Programs as they are written: each name by what it is the name of, with the imports that it needs; the names that a value prints, in
//! their order; and the faults for which a program does not mean the same once it is printed.
//!
//! The definitions stand in `specs/`, and the contracts of the crates above cite them. The calls here compute nothing: each carries
//! laws of the definitions.
#![tactic(auto)]

ghost use Rattle.mol_spell_rules.specs.Laws.{FaultsDetermined, FilesInOrder, TargetsAlike, TypesAlike};
ghost use Rattle.mol_spell_rules.specs.ReadBack.{ReadsBack};

mod references;

pub use references::{references_in_order, references_name};

/// The law of files: those of a program ascend by their paths, and there is one for each class that lives.
#[tactic(auto, using(crate::proofs::FilesOrdered::files_in_order))]
pub fn files_in_order()
    ensures { FilesInOrder }
{}

/// The law of references: whatever file a value prints in, its names are those of the same things, in the same order.
#[tactic(auto, using(crate::proofs::StatementTargets::targets_alike))]
pub fn targets_alike()
    ensures { TargetsAlike }
{}

/// The law of static types: members of a value are asked for by the static type that the value has in the program.
#[tactic(auto, using(crate::proofs::StatementTargets::types_alike))]
pub fn types_alike()
    ensures { TypesAlike }
{}

/// The law of faults: there is at most one list of all faults of a program, and it is empty exactly where the program is clean.
#[tactic(auto, using(crate::proofs::FaultsOrdered::faults_determined))]
pub fn faults_determined()
    ensures { FaultsDetermined }
{}

/// The law of reading back: an expression of names, members and calls whose names read as their targets, read again by the view of the
/// program, is a value that says it, without a fault and of its static type. In the files of a program that keeps the rules of programs
/// names are written where they are read by that view.
#[tactic(auto, using(crate::proofs::WholeBack::reads_back))]
pub fn reads_back()
    ensures { ReadsBack }
{}
