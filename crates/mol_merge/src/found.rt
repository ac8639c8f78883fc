//! The conflicts of two logs, or what they leave together.
ghost use Rattle.std.specs.Prelude.{◌≡◌, [], IfOk};
ghost use Rattle.mol_log_rules.specs.Histories.{AppliesOn, after};
ghost use Rattle.mol_log_rules.specs.Logs.{history};
ghost use Rattle.mol_merge.specs.Finding.{IsFound};
ghost use Rattle.mol_merge_rules.specs.Conflicts.{ArePairConflicts};
ghost use Rattle.mol_merge_rules.specs.TwoLogs.{ShareNoTag};
ghost use Rattle.mol_table_rules.specs.Program.{Program};

use crate::bads::bads;
use mol_base::{List, OutOfMemory};
use mol_conflict::pairs_between;
use mol_faults_rules::Conflict;
use mol_log::Log;
use mol_log_writers::{LastWrites, Side};
use mol_table::Table;
use mol_unite::unite_onto;
use std::alloc::Global;

/// What two logs come to together.
#[derive(Drop)]
pub enum Found {
    /// Nothing in them conflicts: the program that both leave.
    United(Table),
    /// All conflicts: at least one.
    Conflicts(List<Conflict>),
}

/// All conflicts of two logs over one base: the pair conflicts, and where there are none, the faults of what the one log leaves and then the
/// other. Where there are none of these either, it answers that program.
///
/// Each log applies to the base, which is enough: none need replay. No tag is in both. The list is in the order of the pairs, whichever log is
/// the one. `Err` is want of memory.
///
/// What each log leaves is made of a copy of the base. The united program is made of the first of the two in place, once the other one is let
/// go of: so there are never more than these two programs in memory beside the base, but for one that is tidied.
pub fn conflicts_of(
    alloc: Global,
    base: &Table,
    one: &Log,
    other: &Log,
) -> Result<Found, OutOfMemory>
    requires one { AppliesOn base.now (history one.now) }
    requires other { AppliesOn base.now (history other.now) }
    requires apart { ShareNoTag one.now other.now }
    ensures { IfOk result (IsFound base.now (history one.now) (history other.now)) }
{
    let one_writes = LastWrites::of(alloc, one)?;
    let other_writes = LastWrites::of(alloc, other)?;
    by_writes(alloc, base, one, &one_writes, other, &other_writes)
}

/// The same, by the last writers of both logs.
fn by_writes(
    alloc: Global,
    base: &Table,
    one: &Log,
    one_writes: &LastWrites<'_>,
    other: &Log,
    other_writes: &LastWrites<'_>,
) -> Result<Found, OutOfMemory>
    requires one { AppliesOn base.now (history one.now) }
    requires other { AppliesOn base.now (history other.now) }
    requires apart { ShareNoTag one.now other.now }
    requires one_writes { one_writes.now ≡ one.now }
    requires other_writes { other_writes.now ≡ other.now }
    ensures { IfOk result (IsFound base.now (history one.now) (history other.now)) }
{
    let left = left_by(alloc, base, one)?;
    from_left(alloc, base, left, one_writes, other, other_writes)
}

/// The same, from what the one log leaves.
fn from_left(
    alloc: Global,
    base: &Table,
    left: Table,
    one: &LastWrites<'_>,
    later: &Log,
    other: &LastWrites<'_>,
) -> Result<Found, OutOfMemory>
    requires left { left ≡ after base.now (history one.now) }
    requires later { later.now ≡ other.now }
    requires applies { AppliesOn base.now (history later.now) }
    requires behind { AppliesOn left (history later.now) }
    ensures { IfOk result (IsFound base.now (history one.now) (history other.now)) }
{
    let pairs = pairs_of(alloc, base, &left, one, later, other)?;
    if pairs.items().is_empty() {
        without_pairs(alloc, left, later, one, other)
    } else {
        Ok(Found::Conflicts(pairs))
    }
}

/// What a log leaves of a copy of the base.
fn left_by(alloc: Global, base: &Table, log: &Log) -> Result<Table, OutOfMemory>
    requires { AppliesOn base.now (history log.now) }
    ensures { IfOk result (λ left. left ≡ after base.now (history log.now)) }
{
    let copy = base.copy(alloc)?;
    unite_onto(alloc, copy, log)
}

/// The pair conflicts of two logs, by their last writers and by what the one leaves. What the other one leaves is let go of.
fn pairs_of(
    alloc: Global,
    base: &Table,
    one_left: &Table,
    one: &LastWrites<'_>,
    later: &Log,
    other: &LastWrites<'_>,
) -> Result<List<Conflict>, OutOfMemory>
    requires one { one_left.now ≡ after base.now (history one.now) }
    requires later { later.now ≡ other.now }
    requires applies { AppliesOn base.now (history later.now) }
    ensures { IfOk result (ArePairConflicts base.now (history one.now) (history other.now)) }
{
    let other_left = left_by(alloc, base, later)?;
    by_sides(alloc, base, one_left, one, &other_left, other)
}

/// The same, by what both leave.
fn by_sides(
    alloc: Global,
    base: &Table,
    one_left: &Table,
    one: &LastWrites<'_>,
    other_left: &Table,
    other: &LastWrites<'_>,
) -> Result<List<Conflict>, OutOfMemory>
    requires one { one_left.now ≡ after base.now (history one.now) }
    requires other { other_left.now ≡ after base.now (history other.now) }
    ensures { IfOk result (ArePairConflicts base.now (history one.now) (history other.now)) }
{
    let one_side = Side::of(alloc, one_left, one)?;
    let other_side = Side::of(alloc, other_left, other)?;
    pairs_between(alloc, base, &one_side, &other_side)
}

/// What two logs without pair conflicts come to, from what the one leaves.
fn without_pairs(
    alloc: Global,
    left: Table,
    later: &Log,
    one: &LastWrites<'_>,
    other: &LastWrites<'_>,
) -> Result<Found, OutOfMemory>
    requires later { later.now ≡ other.now }
    requires applies { AppliesOn left (history later.now) }
    ensures { IfOk result (λ found. (base : Program) → left ≡ after base (history one.now)
        → ArePairConflicts base (history one.now) (history other.now) []
        → IsFound base (history one.now) (history other.now) found) }
{
    let united = unite_onto(alloc, left, later)?;
    let list = bads(alloc, &united, one, other)?;
    if list.items().is_empty() {
        Ok(Found::United(united))
    } else {
        Ok(Found::Conflicts(list))
    }
}
