//! What logs are to programs: the changes that their entries make one after the other, what these leave, and who wrote a cell last.
//!
//! The definitions stand in `specs/`, and the contracts of the crates above cite them. The calls here compute nothing: they carry the
//! laws of the definitions.
#![tactic(auto)]

ghost use Rattle.mol_log_rules.specs.LeavingLaws.{LastWritesLeft};
ghost use Rattle.mol_log_rules.specs.LogLaws.{LogsLawful};
ghost use Rattle.mol_log_rules.specs.WriterLaws.{WritersLast};

/// The law of replay: what a history leaves of a program is last writes over it, and keeps the rules of programs; and where a
/// history stops.
#[tactic(auto, using(crate::proofs::Laws::last_writes_left))]
pub fn last_writes_left()
    ensures { LastWritesLeft }
{}

/// The law of writers: the last writer of a cell is the entry that wrote the value that is left in it, and what is gone has one.
#[tactic(auto, using(crate::proofs::Laws::writers_last))]
pub fn writers_last()
    ensures { WritersLast }
{}

/// The law of logs: their entries keep to the laws of operations, each has a stamp of its own, and some of them are a log again.
#[tactic(auto, using(crate::proofs::Laws::logs_lawful))]
pub fn logs_lawful()
    ensures { LogsLawful }
{}
