//! The program that two logs leave together.
ghost use Rattle.std.specs.Prelude.{List as Items, ◌≡◌, ◌↔◌, [], IfOk, OnOk};
ghost use Rattle.mol_log.specs.declared.entries.entry.Entry.{Entry as AnyEntry};
ghost use Rattle.mol_log_rules.specs.Histories.{AppliesOn, after};
ghost use Rattle.mol_log_rules.specs.Living.{HasNoDead};
ghost use Rattle.mol_log_rules.specs.Logs.{history, history_of};
ghost use Rattle.mol_merge_rules.specs.Interleavings.{Interleaves};
ghost use Rattle.mol_merge_rules.specs.PairConflicts.{ArePairs};
ghost use Rattle.mol_merge_rules.specs.TwoLogs.{ShareNoTag, greater, lesser};
ghost use Rattle.mol_merge_rules.specs.United.{IsUnited, united};
ghost use Rattle.mol_spell_rules.specs.Clean.{Clean};
ghost use Rattle.mol_table_rules.specs.Sameness.{Same};

use crate::order::comes_first;
use mol_base::OutOfMemory;
use mol_log::{Entry, Log};
use mol_op::apply_fitting;
use mol_table::Table;
use std::alloc::Global;

/// The program that two logs of different tags leave together, where nothing in them conflicts: the base with the entities that either
/// adds, each cell with the last value of a log that writes it. Where both do, what they write differs only in cells of what is dead; such
/// a cell has the value of the log with the greater first tag.
///
/// The base has no dead entity, and each log applies to it. The entries may be taken in any order that keeps that of each log: all of them
/// apply, and what they leave is the same program, which is clean exactly where the answer is. `Err` is want of memory.
///
/// The time is that of one copy of the base and of applying each entry once.
pub fn unite(alloc: Global, base: &Table, first: &Log, second: &Log) -> Result<Table, OutOfMemory>
    requires alive { HasNoDead base.now }
    requires first { AppliesOn base.now (history first.now) }
    requires second { AppliesOn base.now (history second.now) }
    requires apart { ShareNoTag first.now second.now }
    requires none { ArePairs base.now (history (lesser first.now second.now)) (history (greater first.now second.now)) [] }
    ensures united { IfOk result
        (IsUnited base.now (history (lesser first.now second.now)) (history (greater first.now second.now))) }
    ensures in_turn { IfOk result (λ table.
        table ≡ united base.now (history (lesser first.now second.now)) (history (greater first.now second.now))) }
    // Replay commutes: each order of the entries leaves what is the same, and is clean together with it.
    ensures every_order { IfOk result (λ table. (log : Items AnyEntry) → Interleaves first.now.entries second.now.entries log
        → AppliesOn base.now (history_of log) × Same (after base.now (history_of log)) table) }
    ensures clean { IfOk result (λ table. (log : Items AnyEntry) → Interleaves first.now.entries second.now.entries log
        → Clean (after base.now (history_of log)) ↔ Clean table) }
{
    // That the rules of programs hold of every table is what this call says.
    let _ = base.ids();
    lesser_first(alloc, base, first, second)
}

/// What the log of the lesser first tag leaves, and then the other one.
fn lesser_first(
    alloc: Global,
    base: &Table,
    first: &Log,
    second: &Log,
) -> Result<Table, OutOfMemory>
    requires first { AppliesOn base.now (history first.now) }
    requires second { AppliesOn base.now (history second.now) }
    requires apart { ShareNoTag first.now second.now }
    ensures { IfOk result (λ table.
        table ≡ united base.now (history (lesser first.now second.now)) (history (greater first.now second.now))) }
{
    if comes_first(first, second) {
        in_turn(alloc, base, first, second)
    } else {
        in_turn(alloc, base, second, first)
    }
}

/// What one log leaves of a copy of the base, and then the other one of that.
fn in_turn(alloc: Global, base: &Table, one: &Log, other: &Log) -> Result<Table, OutOfMemory>
    requires one { AppliesOn base.now (history one.now) }
    requires other { AppliesOn base.now (history other.now) }
    requires apart { ShareNoTag one.now other.now }
    ensures { IfOk result (λ table. table ≡ united base.now (history one.now) (history other.now)) }
{
    let copy = base.copy(alloc)?;
    let left = unite_onto(alloc, copy, one)?;
    unite_onto(alloc, left, other)
}

/// What a log leaves of a program to which it applies, as of what another log left of their base. The table is changed in place and not
/// copied: the time is that of applying each entry once. `Err` is want of memory.
pub fn unite_onto(alloc: Global, left: Table, later: &Log) -> Result<Table, OutOfMemory>
    requires { AppliesOn left (history later.now) }
    ensures { IfOk result (λ table. table ≡ after left (history later.now)) }
{
    let mut table = left;
    apply_entries(alloc, &mut table, later.entries.items())?;
    Ok(table)
}

/// Applies entries that apply, one after the other.
fn apply_entries(alloc: Global, table: &mut Table, entries: &[Entry]) -> Result<(), OutOfMemory>
    requires { AppliesOn table.old (history_of entries.now) }
    ensures { OnOk result (table.new ≡ after table.old (history_of entries.now)) }
{
    for entry in entries {
        apply_fitting(alloc, &entry.op, entry.stamp.tag, table)?;
    }
    Ok(())
}
