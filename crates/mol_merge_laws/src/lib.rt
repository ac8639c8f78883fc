//! Laws of a merge of two logs: every order of their entries, what both leave together, where they are in conflict, and the log of both.
//!
//! The definitions stand in `mol_merge_rules`. The calls here compute nothing: each carries laws of these.
#![tactic(auto)]

ghost use Rattle.mol_merge_laws.specs.BadLaws.{BadsNamed};
ghost use Rattle.mol_merge_laws.specs.ConflictLaws.{ConflictsDetermined};
ghost use Rattle.mol_merge_laws.specs.OrderLaws.{EveryOrder};
ghost use Rattle.mol_merge_laws.specs.PairLaws.{PairsInConflict};
ghost use Rattle.mol_merge_laws.specs.PartLaws.{PartsOfUnited};
ghost use Rattle.mol_merge_laws.specs.TagLaws.{LogsApart, LogsMerge};
ghost use Rattle.mol_merge_laws.specs.UnitedLaws.{UnitedInTurn};

/// The law of the united program: it is what one log leaves and then the other.
#[tactic(auto, using(crate::proofs::Laws::united_in_turn))]
pub fn united_in_turn()
    ensures { UnitedInTurn }
{}

/// The law of orders: two logs that share no tag and apply to one base apply in every order that takes the entries of each in their own
/// order. Where the base keeps the rules of programs and has no dead entity, and no entries are in conflict, each of these orders leaves
/// what is the same program.
#[tactic(auto, using(crate::proofs::EveryOrder::every_order))]
pub fn every_order()
    ensures { EveryOrder }
{}

/// The law of pairs: of the entries of two histories that are in conflict there is at most one list, whichever history is given first, and
/// the conflict of each pair names an entry of each history. If no tag has entries of both, their conflicts do not go by that order either.
#[tactic(auto, using(crate::proofs::Pairs::pairs_in_conflict))]
pub fn pairs_in_conflict()
    ensures { PairsInConflict }
{}

/// The law of conflicts: two histories have at most one list of them. The empty list is one exactly where no entries are in conflict and
/// what both leave together is clean.
#[tactic(auto, using(crate::proofs::Determined::conflicts_determined))]
pub fn conflicts_determined()
    ensures { ConflictsDetermined }
{}

/// The law of parts: where two logs share no tag and apply to a base without dead entities, and no entries are in conflict, what each
/// leaves is part of what both leave, if what the other one leaves is clean. A cell that one of two histories does not write holds in what
/// both leave what the other one leaves there.
#[tactic(auto, using(crate::proofs::PartsLeft::parts_of_united))]
pub fn parts_of_united()
    ensures { PartsOfUnited }
{}

/// The law of faults: where two logs share no tag, each leaves a clean program of a base without dead entities, and no entries are in
/// conflict, the conflict of a fault names an entry of each log, if no clean part of what both leave holds what the fault rests on.
#[tactic(auto, using(crate::proofs::BadsNamed::bads_named))]
pub fn bads_named()
    ensures { BadsNamed }
{}

/// The law of tags: two logs that share none have an order of their own, whichever is given first, and entries of different tags.
#[tactic(auto, using(crate::proofs::Laws::logs_apart))]
pub fn logs_apart()
    ensures { LogsApart }
{}

/// The law of the merged log: the entries of two logs that share no tag, one log behind the other, are a log if they are not too many.
#[tactic(auto, using(crate::proofs::Laws::logs_merge))]
pub fn logs_merge()
    ensures { LogsMerge }
{}
