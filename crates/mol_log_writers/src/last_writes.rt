//! The last writers of cells and of entities.
ghost use Rattle.std.specs.Prelude.{◌≡◌, ◌↔◌, IfOk, OnOk, IsSome, Contains};
ghost use Rattle.mol_base.specs.Order.{id_cmp};
ghost use Rattle.mol_log_rules.specs.Histories.{last};
ghost use Rattle.mol_log_rules.specs.Logs.{history, history_of};
ghost use Rattle.mol_log_rules.specs.Writers.{entity_writer, same_cell, writer};
ghost use Rattle.mol_log_writers.specs.LastWriters.{AreLastWriters, AreNoted, is_in_entity};
ghost use Rattle.mol_values_types.specs.Order.{cell_cmp};
ghost use Rattle.mol_values_types.specs.declared.cell.Cell.{Cell as AnyCell};

use crate::cells::cells_of;
use indexmap::IndexMap;
use mol_base::{Id, OutOfMemory, Stamp};
use mol_log::{Entry, Log};
use mol_values_types::Cell;
use std::alloc::Global;
use std::marker::Model;

/// The entries of a log that wrote last: into each cell, and into any cell of each entity. Contracts see the log.
#[derive(Drop)]
pub struct LastWrites<'a> {
    log: &'a Log,
    by_cell: IndexMap<Cell, Stamp>,
    by_entity: IndexMap<Id, Stamp>,
}

impl<'a> Model for LastWrites<'a> {
    ghost use Rattle.mol_base.specs.Order.{id_cmp};
    ghost use Rattle.mol_log.specs.contracts.log.Log as a_log;
    ghost use Rattle.mol_log.specs.declared.log.Log.{Log};
    ghost use Rattle.mol_log_rules.specs.Logs.{history};
    ghost use Rattle.mol_log_rules.specs.Writers.{same_cell};
    ghost use Rattle.mol_log_writers.specs.LastWriters.{AreLastWriters, is_in_entity};
    ghost use Rattle.mol_values_types.specs.Order.{cell_cmp};

    ghost Value = { Log };

    ghost coded = { a_log.the_row.coded };

    ghost view = { λ writes. writes.log.now };

    ghost invariant = { λ writes. AreLastWriters cell_cmp same_cell (history writes.log.now) writes.by_cell.entries
        × AreLastWriters id_cmp is_in_entity (history writes.log.now) writes.by_entity.entries };
}

impl<'a> LastWrites<'a> {
    /// The last writers of a log. The time is that of some look-ups for each cell that an entry writes. `Err` is want of memory.
    pub fn of(alloc: Global, log: &'a Log) -> Result<LastWrites<'a>, OutOfMemory>
        ensures { IfOk result (λ writes. writes ≡ log.now) }
    {
        let entries = log.entries.items();
        let by_cell = writers_by_cell(alloc, entries)?;
        let by_entity = writers_by_entity(alloc, entries)?;
        Ok(LastWrites {
            log,
            by_cell,
            by_entity,
        })
    }

    /// The entries of the log. It takes no memory.
    pub(crate) fn entries(&self) -> &'a [Entry]
        ensures { result.now ≡ self.now.entries }
    {
        self.log.entries.items()
    }

    /// The stamp of the entry that wrote last into a cell. `None` exactly where none wrote into it. It takes no memory.
    ///
    /// Last is by the place in the log: where a merge made it, its stamps need not ascend.
    pub fn writer(&self, at: &Cell) -> Option<Stamp>
        ensures { result ≡ writer (history self.now) at.now }
    {
        self.by_cell.get(at).copied()
    }

    /// The stamp of the entry that wrote last into any cell of an entity. `None` exactly where none did. It takes no memory.
    pub fn entity_writer(&self, id: &Id) -> Option<Stamp>
        ensures { result ≡ entity_writer (history self.now) id.now }
    {
        self.by_entity.get(id).copied()
    }

    /// The cells that the log writes, and no other. It takes no memory.
    pub fn cells(&self) -> &[Cell]
        ensures { (at : AnyCell) → Contains result.now at ↔ IsSome (last (history self.now) at) }
    {
        self.by_cell.keys().as_slice()
    }
}

/// For each cell the stamp of the last of these entries that writes it.
fn writers_by_cell(alloc: Global, entries: &[Entry]) -> Result<IndexMap<Cell, Stamp>, OutOfMemory>
    ensures { IfOk result (λ index. AreLastWriters cell_cmp same_cell (history_of entries.now) index.entries) }
{
    let mut index = IndexMap::new(alloc);
    for entry in entries {
        let cells = cells_of(alloc, &entry.op)?;
        note_cells(&mut index, cells.as_slice(), &entry.stamp)?;
    }
    Ok(index)
}

/// For each entity the stamp of the last of these entries that writes a cell of it.
fn writers_by_entity(alloc: Global, entries: &[Entry]) -> Result<IndexMap<Id, Stamp>, OutOfMemory>
    ensures { IfOk result (λ index. AreLastWriters id_cmp is_in_entity (history_of entries.now) index.entries) }
{
    let mut index = IndexMap::new(alloc);
    for entry in entries {
        let cells = cells_of(alloc, &entry.op)?;
        note_entities(&mut index, cells.as_slice(), &entry.stamp)?;
    }
    Ok(index)
}

/// Notes a later writer of these cells.
fn note_cells(
    index: &mut IndexMap<Cell, Stamp>,
    cells: &[Cell],
    stamp: &Stamp,
) -> Result<(), OutOfMemory>
    ensures { OnOk result (AreNoted cell_cmp same_cell cells.now stamp.now index.old.entries index.new.entries) }
{
    for at in cells {
        index.insert(*at, *stamp)?;
    }
    Ok(())
}

/// Notes a later writer of the entities of these cells.
fn note_entities(
    index: &mut IndexMap<Id, Stamp>,
    cells: &[Cell],
    stamp: &Stamp,
) -> Result<(), OutOfMemory>
    ensures { OnOk result (AreNoted id_cmp is_in_entity cells.now stamp.now index.old.entries index.new.entries) }
{
    for at in cells {
        index.insert(at.id, *stamp)?;
    }
    Ok(())
}
