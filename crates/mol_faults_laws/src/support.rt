//! Faults by the cells that they rest on.
//!
//! The call here computes nothing: it carries the law, which is said in `specs/support/`.

ghost use Rattle.mol_faults_laws.specs.support.Laws.{FaultsSupported};

/// The law of support: what a fault rests on, held by a part of the program, makes that unclean too. Both keep the rules of programs. A
/// part knows no more than the whole and the same, what it knows and lives in the whole lives in it, and a class that both name above what
/// lives in the whole lives in the whole if it lives in the part. It is said of all faults but misread names.
#[tactic(auto, using(crate::proofs::support_lemmas::Supported::faults_supported))]
pub fn faults_supported()
    ensures { FaultsSupported }
{}
