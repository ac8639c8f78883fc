//! Which of the faults of source files is the first.
//!
//! The definitions stand in `specs/first_faults/`, and the contracts of the crates above cite them. The call here computes nothing: it
//! carries the law of the definitions.

ghost use Rattle.mol_resolve_faults.specs.first_faults.FirstByPath.{FirstByPath};

/// The law of the order of files: where these are read by their paths, the first one that has a fault has the first fault of all.
#[tactic(auto, using(crate::proofs::first_faults_lemmas::FirstInOrder::first_by_path))]
pub fn first_by_path()
    ensures { FirstByPath }
{}
