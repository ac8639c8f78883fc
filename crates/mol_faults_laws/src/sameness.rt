//! Programs that are the same.
//!
//! The call here computes nothing: it carries the law, which is said in `specs/sameness/`.

ghost use Rattle.mol_faults_laws.specs.sameness.Laws.{SameAreClean};

/// The law of sameness: of two programs that keep the rules, know the same entities and are the same, one is clean where the other is, and
/// then both have the same files.
#[tactic(auto, using(crate::proofs::sameness_lemmas::Together::same_are_clean))]
pub fn same_are_clean()
    ensures { SameAreClean }
{}
