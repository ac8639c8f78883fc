//! What does not live after one log, and is changed or used by the other.
ghost use Rattle.std.specs.Prelude.{◌≡◌, ◌++◌, OnOk, map, option_copied};
ghost use Rattle.std.specs.List.{list_any};
ghost use Rattle.mol_conflict.specs.Found.{changed_at, gone_at, gone_in, is_gone as is_lost, used_among, used_at, used_by, used_in};
ghost use Rattle.mol_faults_mentions.specs.mentions.Kept.{kept_mention};
ghost use Rattle.mol_table_rules.specs.Mentions.{mentions};
ghost use Rattle.mol_table_rules.specs.Tidy.{tidy};

use crate::living::{Programs, is_gone, lives};
use crate::pair::Pair;
use mol_base::{Id, OutOfMemory};
use mol_faults_mentions::{Mention, mentions_of};
use mol_table::Table;
use mol_values_types::{Cell, Value};
use std::alloc::Global;

/// Adds what is gone, and changed or used in these cells, which the other log writes. What that log leaves is tidied only where something
/// is gone.
pub(crate) fn add_gone(
    alloc: Global,
    found: &mut Vec<Pair>,
    programs: &Programs<'_>,
    cells: &[Cell],
) -> Result<(), OutOfMemory>
    ensures { OnOk result (found.new.items ≡ found.old.items
        ++ gone_in programs.now.base.now programs.now.gone.now programs.now.other.now (tidy programs.now.other.now) cells.now) }
{
    if is_any_gone(programs, programs.base.ids()) {
        let tidied = programs.other.tidy(alloc)?;
        return add_cells(alloc, found, programs, &tidied, cells);
    }
    Ok(())
}

/// Whether one of these is gone. It takes no memory.
fn is_any_gone(programs: &Programs<'_>, ids: &[Id]) -> bool
    ensures { result ≡ list_any (is_lost programs.now.base.now programs.now.gone.now programs.now.other.now) ids.now }
{
    for id in ids {
        if is_gone(programs, id) {
            return true;
        }
    }
    false
}

/// Adds what is gone, and changed or used in these cells.
fn add_cells(
    alloc: Global,
    found: &mut Vec<Pair>,
    programs: &Programs<'_>,
    tidied: &Table,
    cells: &[Cell],
) -> Result<(), OutOfMemory>
    ensures { OnOk result (found.new.items ≡ found.old.items
        ++ gone_in programs.now.base.now programs.now.gone.now programs.now.other.now tidied.now cells.now) }
{
    for at in cells {
        add_cell(alloc, found, programs, tidied, at)?;
    }
    Ok(())
}

/// Adds what is gone, and changed or used in a cell.
fn add_cell(
    alloc: Global,
    found: &mut Vec<Pair>,
    programs: &Programs<'_>,
    tidied: &Table,
    at: &Cell,
) -> Result<(), OutOfMemory>
    ensures { OnOk result (found.new.items ≡ found.old.items
        ++ gone_at programs.now.base.now programs.now.gone.now programs.now.other.now tidied.now at.now) }
{
    add_changed(found, programs, at)?;
    add_used(alloc, found, programs, tidied, at)
}

/// Adds the entity of a cell, where it is gone.
fn add_changed(found: &mut Vec<Pair>, programs: &Programs<'_>, at: &Cell) -> Result<(), OutOfMemory>
    ensures { OnOk result (found.new.items ≡ found.old.items
        ++ changed_at programs.now.base.now programs.now.gone.now programs.now.other.now at.now) }
{
    if is_gone(programs, &at.id) {
        found.push(Pair::GoneChanged(at.id))?;
    }
    Ok(())
}

/// Adds what is gone and used in a cell, where its entity lives.
fn add_used(
    alloc: Global,
    found: &mut Vec<Pair>,
    programs: &Programs<'_>,
    tidied: &Table,
    at: &Cell,
) -> Result<(), OutOfMemory>
    ensures { OnOk result (found.new.items ≡ found.old.items
        ++ used_at programs.now.base.now programs.now.gone.now programs.now.other.now tidied.now at.now) }
{
    if lives(programs.other, &at.id) {
        return add_used_in(alloc, found, programs, at, tidied.get(at));
    }
    Ok(())
}

/// Adds what is gone and used in a cell, which may have a value.
fn add_used_in(
    alloc: Global,
    found: &mut Vec<Pair>,
    programs: &Programs<'_>,
    at: &Cell,
    value: Option<&Value>,
) -> Result<(), OutOfMemory>
    ensures { OnOk result (found.new.items ≡ found.old.items
        ++ used_in programs.now.base.now programs.now.gone.now programs.now.other.now at.now (option_copied value.entry)) }
{
    match value {
        Some(value) => add_value(alloc, found, programs, at, value),
        None => Ok(()),
    }
}

/// Adds what a value in a cell mentions and is gone.
fn add_value(
    alloc: Global,
    found: &mut Vec<Pair>,
    programs: &Programs<'_>,
    at: &Cell,
    value: &Value,
) -> Result<(), OutOfMemory>
    ensures { OnOk result (found.new.items ≡ found.old.items
        ++ used_among programs.now.base.now programs.now.gone.now programs.now.other.now at.now (mentions value.now)) }
{
    let mentions = mentions_of(alloc, value)?;
    add_mentions(found, programs, at, mentions.items())
}

/// Adds which of these mentions in a cell are gone.
fn add_mentions(
    found: &mut Vec<Pair>,
    programs: &Programs<'_>,
    at: &Cell,
    mentions: &[Mention],
) -> Result<(), OutOfMemory>
    ensures { OnOk result (found.new.items ≡ found.old.items
        ++ used_among programs.now.base.now programs.now.gone.now programs.now.other.now at.now (map kept_mention mentions.now)) }
{
    for mention in mentions {
        add_mention(found, programs, at, mention)?;
    }
    Ok(())
}

/// Adds what is mentioned in a cell, where it is gone.
fn add_mention(
    found: &mut Vec<Pair>,
    programs: &Programs<'_>,
    at: &Cell,
    mention: &Mention,
) -> Result<(), OutOfMemory>
    ensures { OnOk result (found.new.items ≡ found.old.items
        ++ used_by programs.now.base.now programs.now.gone.now programs.now.other.now at.now (kept_mention mention.now)) }
{
    if is_gone(programs, &mention.id) {
        found.push(Pair::GoneUsed(mention.id, *at))?;
    }
    Ok(())
}
