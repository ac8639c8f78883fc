//! Laws of the conflicts of two logs: they can be listed, and each names an entry of each log, but for names that are misread.
//!
//! The definitions stand in `mol_merge_rules`. The calls here compute nothing: each carries a law.
#![tactic(auto)]

ghost use Rattle.mol_conflict_laws.specs.Laws.{ConflictsListed, ConflictsNameBoth};

/// The law of lists: two histories over a base have a list of all their conflicts, whichever they are. So they have exactly one, as
/// `conflicts_determined` of `mol_merge_laws` says that there is no second.
#[tactic(auto, using(crate::proofs::EveryConflict::conflicts_listed))]
pub fn conflicts_listed()
    ensures { ConflictsListed }
{}

/// The law of both sides: where two logs share no tag and each leaves a clean program of a base without dead entities, each of their
/// conflicts names an entry of each log, but for a name that is misread.
#[tactic(auto, using(crate::proofs::BothSides::conflicts_name_both))]
pub fn conflicts_name_both()
    ensures { ConflictsNameBoth }
{}
