//! The conflicts of pairs.
ghost use Rattle.std.specs.Prelude.{◌≡◌, IfOk, IsSome, Some};
ghost use Rattle.std.specs.FinMap.{get};
ghost use Rattle.std.specs.List.{AllZip};
ghost use Rattle.mol_conflict.specs.Found.{pair_of};
ghost use Rattle.mol_conflict.specs.Made.{AreHeld, AreValued, IsMade, IsValued, is_later, stamps_in};
ghost use Rattle.mol_log_rules.specs.Histories.{last};
ghost use Rattle.mol_log_rules.specs.Logs.{history};
ghost use Rattle.mol_log_rules.specs.Writers.{writer};
ghost use Rattle.mol_merge_rules.specs.Conflicts.{in_stamp_order, pair_kind, twice_kind};

use crate::pair::Pair;
use crate::stamps::{ascending, writers_of};
use mol_base::{List, OutOfMemory, Stamp, both};
use mol_faults_rules::{Conflict, ConflictKind};
use mol_log_writers::Side;
use mol_table::Table;
use mol_values_types::{Cell, Value};
use std::alloc::Global;

/// The conflicts of these pairs, in their order.
pub(crate) fn conflicts_of(
    alloc: Global,
    one: &Side<'_>,
    other: &Side<'_>,
    pairs: &[Pair],
) -> Result<List<Conflict>, OutOfMemory>
    requires { AreValued one.now.left.now other.now.left.now (history one.now.writes.now) (history other.now.writes.now) pairs.now }
    ensures { IfOk result (AllZip
        (IsMade one.now.left.now other.now.left.now (history one.now.writes.now) (history other.now.writes.now)) pairs.now) }
{
    let mut conflicts = List::new(alloc);
    for pair in pairs {
        let conflict = conflict_of(alloc, one, other, pair)?;
        conflicts.add(conflict)?;
    }
    Ok(conflicts)
}

/// The conflict of a pair.
fn conflict_of(
    alloc: Global,
    one: &Side<'_>,
    other: &Side<'_>,
    pair: &Pair,
) -> Result<Conflict, OutOfMemory>
    requires { IsValued one.now.left.now other.now.left.now (history one.now.writes.now) (history other.now.writes.now) pair.now }
    ensures { IfOk result
        (IsMade one.now.left.now other.now.left.now (history one.now.writes.now) (history other.now.writes.now) pair.now) }
{
    let (kind, stamps) = both(
        kind_of(alloc, one, other, pair),
        stamps_of(alloc, one, other, pair),
    )?;
    Ok(Conflict { kind, stamps })
}

/// The stamps of the conflict of a pair.
fn stamps_of(
    alloc: Global,
    one: &Side<'_>,
    other: &Side<'_>,
    pair: &Pair,
) -> Result<List<Stamp>, OutOfMemory>
    ensures { IfOk result (λ stamps. stamps
        ≡ stamps_in one.now.left.now other.now.left.now (history one.now.writes.now) (history other.now.writes.now) pair.now) }
{
    let (first, second) = writers_of(one, other, pair);
    ascending(alloc, first, second)
}

/// Which conflict a pair is.
fn kind_of(
    alloc: Global,
    one: &Side<'_>,
    other: &Side<'_>,
    pair: &Pair,
) -> Result<ConflictKind, OutOfMemory>
    requires { IsValued one.now.left.now other.now.left.now (history one.now.writes.now) (history other.now.writes.now) pair.now }
    ensures { IfOk result (λ kind.
        pair_kind (history one.now.writes.now) (history other.now.writes.now) (pair_of pair.now) ≡ Some kind) }
{
    match pair {
        Pair::Twice(at) => twice_of(alloc, one, other, at),
        Pair::GoneChanged(id) => Ok(ConflictKind::GoneChanged(*id)),
        Pair::GoneUsed(id, at) => Ok(ConflictKind::GoneUsed(*id, *at)),
    }
}

/// A cell with the values that two logs leave in it, that of the lesser stamp first.
fn twice_of(
    alloc: Global,
    one: &Side<'_>,
    other: &Side<'_>,
    at: &Cell,
) -> Result<ConflictKind, OutOfMemory>
    requires { AreHeld one.now.left.now other.now.left.now (history one.now.writes.now) (history other.now.writes.now) at.now }
    ensures { IfOk result (λ kind. twice_kind at.now
        (in_stamp_order (writer (history one.now.writes.now) at.now) (writer (history other.now.writes.now) at.now)
        (last (history one.now.writes.now) at.now) (last (history other.now.writes.now) at.now))
        ≡ Some kind) }
{
    if is_later(one.writes.writer(at), other.writes.writer(at)) {
        return values_of(alloc, at, other.left, one.left);
    }
    values_of(alloc, at, one.left, other.left)
}

/// Whether both stamps are there, and the first is the later one.
fn is_later(first: Option<Stamp>, second: Option<Stamp>) -> bool
    ensures { result ≡ is_later first second }
{
    match (first, second) {
        (Some(first), Some(second)) => second < first,
        _ => false,
    }
}

/// A cell with the values that two programs hold in it. Both hold one.
fn values_of(
    alloc: Global,
    at: &Cell,
    first: &Table,
    second: &Table,
) -> Result<ConflictKind, OutOfMemory>
    requires first { IsSome (get first.now.cells at.now) }
    requires second { IsSome (get second.now.cells at.now) }
    ensures { IfOk result (λ kind. twice_kind at.now (get first.now.cells at.now, get second.now.cells at.now) ≡ Some kind) }
{
    let (first, second) = both(value_of(alloc, first, at), value_of(alloc, second, at))?;
    Ok(ConflictKind::Twice(*at, first, second))
}

/// A copy of the value of a cell that has one.
fn value_of(alloc: Global, table: &Table, at: &Cell) -> Result<Value, OutOfMemory>
    requires { IsSome (get table.now.cells at.now) }
    ensures { IfOk result (λ value. get table.now.cells at.now ≡ Some value) }
{
    match table.get(at) {
        Some(value) => value.copy(alloc),
        None => unreachable!(),
    }
}
