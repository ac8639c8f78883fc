//! Cells that two logs set to different values.
ghost use Rattle.std.specs.Prelude.{◌≡◌, ◌++◌, not, OnOk, option_copied};
ghost use Rattle.mol_conflict.specs.Found.{differ, is_twice, twice_at, twice_in};
ghost use Rattle.mol_log_rules.specs.Logs.{history};
ghost use Rattle.mol_table_rules.specs.Values.{same_value as is_same};

use crate::living::lives;
use crate::pair::Pair;
use mol_base::OutOfMemory;
use mol_log_writers::Side;
use mol_values::same_value;
use mol_values_types::{Cell, Value};

/// Adds which of these cells, which the one log writes, both logs set to different values.
pub(crate) fn add_twice(
    found: &mut Vec<Pair>,
    one: &Side<'_>,
    other: &Side<'_>,
    cells: &[Cell],
) -> Result<(), OutOfMemory>
    ensures { OnOk result (found.new.items
        ≡ found.old.items ++ twice_in one.now.left.now other.now.left.now (history other.now.writes.now) cells.now) }
{
    for at in cells {
        add_twice_at(found, one, other, at)?;
    }
    Ok(())
}

/// Adds a cell, where it is one of these.
fn add_twice_at(
    found: &mut Vec<Pair>,
    one: &Side<'_>,
    other: &Side<'_>,
    at: &Cell,
) -> Result<(), OutOfMemory>
    ensures { OnOk result (found.new.items
        ≡ found.old.items ++ twice_at one.now.left.now other.now.left.now (history other.now.writes.now) at.now) }
{
    if is_twice(one, other, at) {
        found.push(Pair::Twice(*at))?;
    }
    Ok(())
}

/// Whether the other log writes a cell, the entity of which lives after both, and leaves another value in it. It takes no memory.
fn is_twice(one: &Side<'_>, other: &Side<'_>, at: &Cell) -> bool
    ensures { result ≡ is_twice one.now.left.now other.now.left.now (history other.now.writes.now) at.now }
{
    lives(one.left, &at.id)
        && lives(other.left, &at.id)
        && other.writes.writer(at).is_some()
        && differ(one.left.get(at), other.left.get(at))
}

/// Whether both are there, and differ.
fn differ(first: Option<&Value>, second: Option<&Value>) -> bool
    ensures { result ≡ differ (option_copied first.entry) (option_copied second.entry) }
{
    match (first, second) {
        (Some(first), Some(second)) => is_other(first, second),
        _ => false,
    }
}

/// Whether a value is another one.
fn is_other(first: &Value, second: &Value) -> bool
    ensures { result ≡ not (is_same first.now second.now) }
{
    !same_value(first, second)
}
