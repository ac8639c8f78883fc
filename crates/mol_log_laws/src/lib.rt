//! Bytes are the text of a log, or something is wrong with them first.
//!
//! The call here computes nothing: it carries the law of the definitions of `mol_log`.
#![tactic(auto)]

ghost use Rattle.mol_log_laws.specs.Laws.{LogsTold};

/// The law of logs as bytes: they are the text of one log or have one first fault, and not both.
#[tactic(auto, using(crate::proofs::Told::told))]
pub fn logs_told()
    ensures { LogsTold }
{}
