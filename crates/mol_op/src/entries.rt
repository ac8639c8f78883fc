//! Lists of entries, applied one after the other.
ghost use Rattle.std.specs.Prelude.{map, MatchResult};
ghost use Rattle.mol_op.specs.Entries.{AreApplied, IsStopped};

use crate::{ApplyFault, Operation};
use mol_base::Tag;
use mol_table::Table;
use std::alloc::Global;

/// An operation with the tag of the log that it is an entry of.
#[derive(Drop)]
pub struct Entry<O> {
    pub operation: O,
    pub tag: Tag,
}

/// Where a list of entries stopped, and why.
#[derive(Clone, Copy, Debug, PartialEq, Eq)]
pub struct Stop {
    /// The place of the entry that was not applied, counted from 0.
    pub at: usize,
    pub why: ApplyFault,
}

/// Applies all entries, the first one first. Each cell then has the last value that they write into it, and
/// where they write none, what it had. Refused or for want of memory it stops, and the table is as the
/// entries before that one leave it. The time is that of applying each of them once.
pub fn apply_all<O: Operation>(
    alloc: Global,
    entries: &[Entry<O>],
    table: &mut Table,
) -> Result<(), Stop>
    ensures { let changes = map (λ entry. record {
      fault = O.fault entry.operation entry.tag;
      writes = O.writes entry.operation;
      names = O.names entry.operation;
    }) entries.now in
        MatchResult result
        (λ _. AreApplied table.old changes table.new)
        (λ stop. IsStopped table.old changes stop.at stop.why table.new) }
{
    for (at, entry) in entries.iter().enumerate() {
        if let Err(why) = entry.operation.apply(alloc, entry.tag, table) {
            return Err(Stop { at, why });
        }
    }
    Ok(())
}
