//! What is kept of several faults.
ghost use Rattle.mol_resolve_faults.specs.First.{FirstKept, KeptAlike};

/// The law of what is kept: of several faults of a file one that none of them goes before, and none only of none.
#[tactic(auto, using(crate::proofs::FirstOfAll::first_kept))]
pub fn first_kept()
    ensures { FirstKept }
{}

/// The law of the order in which faults are noted: it does not matter, and those that are noted in turn are kept as all at once.
#[tactic(auto, using(crate::proofs::SameFaults::kept_alike))]
pub fn kept_alike()
    ensures { KeptAlike }
{}
