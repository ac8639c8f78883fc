//! Answers of a run are exact.
//!
//! The call here computes nothing: it carries the law of the definitions that the contract of `run` in `mol_top` cites.
#![tactic(auto)]

ghost use Rattle.mol_top_laws.specs.Exact.{AnswersExact};

use std::alloc::Global;

/// The law of answers: over whatever a store holds each command is refused by one status, with one line, or comes to one outcome, and never
/// both. So of what `run` may answer where no call fails and memory is there, exactly one answer has its cause. The rules of the parser are
/// over an allocator, of which nothing is asked.
pub fn answers_exact(alloc: Global)
    ensures { AnswersExact }
{
    let _ = alloc;
}
