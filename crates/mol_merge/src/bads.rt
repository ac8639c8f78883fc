//! The faults of what two logs leave together, as conflicts.
ghost use Rattle.std.specs.Prelude.{◌≡◌, ◌++◌, IfOk, OnOk};
ghost use Rattle.std.specs.List.{AllZip, flat_map};
ghost use Rattle.std.specs.Option.{option_to_list};
ghost use Rattle.mol_base.specs.Order.{stamp_cmp};
ghost use Rattle.mol_log_rules.specs.Logs.{history};
ghost use Rattle.mol_merge.specs.Finding.{IsBadIn};
ghost use Rattle.mol_merge_rules.specs.Conflicts.{AreBads, writers};
ghost use Rattle.mol_merge_rules.specs.United.{united};
ghost use Rattle.mol_spell_rules.specs.Sets.{as_set};
ghost use Rattle.mol_table_rules.specs.Program.{Program};

use mol_base::{List, OutOfMemory, Stamp, in_order};
use mol_faults::{Supports, faults};
use mol_faults_rules::{Conflict, ConflictKind, Fault};
use mol_log_writers::LastWrites;
use mol_table::Table;
use mol_values_types::Cell;
use std::alloc::Global;

/// The faults of what two logs leave together, in their order, each with the stamps of the entries that wrote last, in either log, the
/// cells that it rests on. `Err` is want of memory.
///
/// The time is that of finding all faults, and where there are some, of reading the program once more, and of some look-ups for each cell
/// that a fault rests on.
pub fn bads(
    alloc: Global,
    together: &Table,
    one: &LastWrites<'_>,
    other: &LastWrites<'_>,
) -> Result<List<Conflict>, OutOfMemory>
    ensures { IfOk result (λ list. (base : Program) → together.now ≡ united base (history one.now) (history other.now)
        → AreBads base (history one.now) (history other.now) list) }
{
    let found = faults(alloc, together)?;
    if found.items().is_empty() {
        return Ok(List::new(alloc));
    }
    let supports = Supports::new(alloc, together)?;
    bads_of(alloc, &supports, found.into_vec(), one, other)
}

/// These faults as conflicts, by what a program rests its faults on.
fn bads_of(
    alloc: Global,
    supports: &Supports<'_>,
    faults: Vec<Fault>,
    one: &LastWrites<'_>,
    other: &LastWrites<'_>,
) -> Result<List<Conflict>, OutOfMemory>
    ensures { IfOk result (λ list.
        AllZip (IsBadIn supports.now (history one.now) (history other.now)) faults.items list) }
{
    let mut list = List::new(alloc);
    for fault in faults {
        let bad = bad_of(alloc, supports, fault, one, other)?;
        list.add(bad)?;
    }
    Ok(list)
}

/// A fault as a conflict.
fn bad_of(
    alloc: Global,
    supports: &Supports<'_>,
    fault: Fault,
    one: &LastWrites<'_>,
    other: &LastWrites<'_>,
) -> Result<Conflict, OutOfMemory>
    ensures { IfOk result (IsBadIn supports.now (history one.now) (history other.now) fault) }
{
    let cells = supports.of(alloc, &fault)?;
    let stamps = stamps_of(alloc, cells.items(), one, other)?;
    Ok(Conflict {
        kind: ConflictKind::Bad(fault),
        stamps,
    })
}

/// The stamps of the entries that wrote these cells last, in either log: ascending, each once.
fn stamps_of(
    alloc: Global,
    cells: &[Cell],
    one: &LastWrites<'_>,
    other: &LastWrites<'_>,
) -> Result<List<Stamp>, OutOfMemory>
    ensures { IfOk result (λ stamps.
        stamps ≡ as_set stamp_cmp (flat_map (writers (history one.now) (history other.now)) cells.now)) }
{
    let mut stamps = Vec::new(alloc);
    for at in cells {
        add_some(&mut stamps, one.writer(at))?;
        add_some(&mut stamps, other.writer(at))?;
    }
    Ok(List::from_vec(in_order(stamps)))
}

/// Adds a stamp at the end, where there is one.
fn add_some(stamps: &mut Vec<Stamp>, added: Option<Stamp>) -> Result<(), OutOfMemory>
    ensures { OnOk result (stamps.new.items ≡ stamps.old.items ++ option_to_list added) }
{
    if let Some(added) = added {
        stamps.push(added)?;
    }
    Ok(())
}
