//! The pair conflicts of two logs.
ghost use Rattle.std.specs.Prelude.{◌≡◌, IfOk};
ghost use Rattle.mol_log_rules.specs.Histories.{AppliesOn, after};
ghost use Rattle.mol_log_rules.specs.Logs.{history};
ghost use Rattle.mol_merge_rules.specs.Conflicts.{ArePairConflicts};

use crate::leaving::left_by;
use crate::made::conflicts_of;
use crate::pairs::pairs_of;
use mol_base::{List, OutOfMemory};
use mol_faults_rules::Conflict;
use mol_log::Log;
use mol_log_writers::{LastWrites, Side};
use mol_table::Table;
use std::alloc::Global;

/// The pair conflicts of two logs over one base, in order, each once: cells that both set to different values, and what does not live
/// after one of the logs and is changed or used by the other one. Of logs that share no tag they are the same in whichever order these
/// are given.
///
/// Each entry of either log applies to what those before it leave. The time is that of applying both logs to copies of the base, of some
/// look-ups for each cell that they write, of what the values that they write mention, and of sorting what is found; where something is
/// gone, it is that of tidying what a log leaves, too. `Err` is want of memory.
pub fn pair_conflicts(
    alloc: Global,
    base: &Table,
    first: &Log,
    second: &Log,
) -> Result<List<Conflict>, OutOfMemory>
    requires first { AppliesOn base.now (history first.now) }
    requires second { AppliesOn base.now (history second.now) }
    ensures { IfOk result (ArePairConflicts base.now (history first.now) (history second.now)) }
{
    let first_left = left_by(alloc, base, first)?;
    by_one_left(alloc, base, first, &first_left, second)
}

/// The pair conflicts of two logs over one base, by what the first one leaves of it.
fn by_one_left(
    alloc: Global,
    base: &Table,
    first: &Log,
    first_left: &Table,
    second: &Log,
) -> Result<List<Conflict>, OutOfMemory>
    requires first { first_left.now ≡ after base.now (history first.now) }
    requires second { AppliesOn base.now (history second.now) }
    ensures { IfOk result (ArePairConflicts base.now (history first.now) (history second.now)) }
{
    let second_left = left_by(alloc, base, second)?;
    by_both_left(alloc, base, first, first_left, second, &second_left)
}

/// The pair conflicts of two logs over one base, by what both leave of it.
fn by_both_left(
    alloc: Global,
    base: &Table,
    first: &Log,
    first_left: &Table,
    second: &Log,
    second_left: &Table,
) -> Result<List<Conflict>, OutOfMemory>
    requires first { first_left.now ≡ after base.now (history first.now) }
    requires second { second_left.now ≡ after base.now (history second.now) }
    ensures { IfOk result (ArePairConflicts base.now (history first.now) (history second.now)) }
{
    let first_writes = LastWrites::of(alloc, first)?;
    let second_writes = LastWrites::of(alloc, second)?;
    by_writes(
        alloc,
        base,
        &first_writes,
        first_left,
        &second_writes,
        second_left,
    )
}

/// The pair conflicts of two logs over one base, by their last writers and by what they leave of it.
fn by_writes(
    alloc: Global,
    base: &Table,
    first: &LastWrites<'_>,
    first_left: &Table,
    second: &LastWrites<'_>,
    second_left: &Table,
) -> Result<List<Conflict>, OutOfMemory>
    requires first { first_left.now ≡ after base.now (history first.now) }
    requires second { second_left.now ≡ after base.now (history second.now) }
    ensures { IfOk result (ArePairConflicts base.now (history first.now) (history second.now)) }
{
    let one = Side::of(alloc, first_left, first)?;
    let other = Side::of(alloc, second_left, second)?;
    pairs_between(alloc, base, &one, &other)
}

/// The pair conflicts of two logs over one base, by what they leave of it and by their last writers, in order, each once.
///
/// The time is that of some look-ups for each cell that the logs write and each identity of the base, of what the values that they
/// write mention, and of sorting what is found; where something is gone after a log, it is that of tidying what the other one leaves,
/// too. `Err` is want of memory.
pub fn pairs_between(
    alloc: Global,
    base: &Table,
    one: &Side<'_>,
    other: &Side<'_>,
) -> Result<List<Conflict>, OutOfMemory>
    requires one { one.now.left.now ≡ after base.now (history one.now.writes.now) }
    requires other { other.now.left.now ≡ after base.now (history other.now.writes.now) }
    ensures { IfOk result (ArePairConflicts base.now (history one.now.writes.now) (history other.now.writes.now)) }
{
    let pairs = pairs_of(alloc, base, one, other)?;
    conflicts_of(alloc, one, other, pairs.as_slice())
}
