//! One of the logs of a merge, and who wrote last in it whether entities live.
ghost use Rattle.std.specs.FinMap.{get};
ghost use Rattle.std.specs.Prelude.{◌≡◌, [], ◌∷◌, IfOk, OnOk};
ghost use Rattle.mol_base.specs.Order.{id_cmp};
ghost use Rattle.mol_log_rules.specs.Living.{is_life_cell};
ghost use Rattle.mol_log_rules.specs.Logs.{history, history_of};
ghost use Rattle.mol_log_rules.specs.Writers.{life_writer};
ghost use Rattle.mol_log_writers.specs.LastWriters.{AreLastWriters, AreNoted, IsLifeNoted, method_of_decl};
ghost use Rattle.mol_values_types.specs.Slots.{same_slot};
ghost use Rattle.mol_values_types.specs.declared.cell.Slot.TheVariants as slots;

use crate::cells::cells_of;
use crate::last_writes::LastWrites;
use indexmap::IndexMap;
use mol_base::{Id, OutOfMemory, Stamp};
use mol_log::Entry;
use mol_table::Table;
use mol_values_types::{Cell, Known, Slot};
use std::alloc::Global;

/// A log, as its last writes, and a program, which tells what is a declaration of which method: for a merge that program is what the log
/// leaves of the base.
#[derive(Drop)]
pub struct Side<'a> {
    pub left: &'a Table,
    pub writes: &'a LastWrites<'a>,
    /// The last writer of whether an entity lives.
    by_life: IndexMap<Id, Stamp>,
    ghost are_last: { AreLastWriters id_cmp (is_life_cell left.now) (history writes.now) by_life.entries },
}

impl<'a> Side<'a> {
    /// A log with what it leaves. The time is that of some look-ups for each cell that an entry writes. `Err` is want of memory.
    pub fn of(
        alloc: Global,
        left: &'a Table,
        writes: &'a LastWrites<'a>,
    ) -> Result<Side<'a>, OutOfMemory>
        ensures left { IfOk result (λ side. side.left.now ≡ left.now) }
        ensures writes { IfOk result (λ side. side.writes.now ≡ writes.now) }
    {
        let by_life = writers_of_life(alloc, left, writes.entries())?;
        Ok(Side {
            left,
            writes,
            by_life,
        })
    }

    /// The stamp of the entry that wrote last whether an entity lives: for a method, whether a declaration of it does. `None` exactly where
    /// none wrote that. It takes no memory.
    pub fn life_writer(&self, id: &Id) -> Option<Stamp>
        ensures { result ≡ life_writer self.now.left.now (history self.now.writes.now) id.now }
    {
        self.by_life.get(id).copied()
    }
}

/// For each entity the stamp of the last of these entries that writes whether it lives.
fn writers_of_life(
    alloc: Global,
    left: &Table,
    entries: &[Entry],
) -> Result<IndexMap<Id, Stamp>, OutOfMemory>
    ensures { IfOk result (λ index. AreLastWriters id_cmp (is_life_cell left.now) (history_of entries.now) index.entries) }
{
    let mut index = IndexMap::new(alloc);
    for entry in entries {
        let cells = cells_of(alloc, &entry.op)?;
        note_lives(&mut index, left, cells.as_slice(), &entry.stamp)?;
    }
    Ok(index)
}

/// Notes a later writer of these cells, for the entities whose life they tell.
fn note_lives(
    index: &mut IndexMap<Id, Stamp>,
    left: &Table,
    cells: &[Cell],
    stamp: &Stamp,
) -> Result<(), OutOfMemory>
    ensures { OnOk result (AreNoted id_cmp (is_life_cell left.now) cells.now stamp.now index.old.entries index.new.entries) }
{
    for at in cells {
        note_life(index, left, at, stamp)?;
    }
    Ok(())
}

/// Notes a later writer of a cell, where that tells whether its entity lives.
fn note_life(
    index: &mut IndexMap<Id, Stamp>,
    left: &Table,
    at: &Cell,
    stamp: &Stamp,
) -> Result<(), OutOfMemory>
    ensures { OnOk result (AreNoted id_cmp (is_life_cell left.now) (at.now ∷ []) stamp.now index.old.entries index.new.entries) }
{
    if tells_life(at) {
        return note_living(index, left, &at.id, stamp);
    }
    Ok(())
}

/// Notes a later writer for an entity, and for the method of which it is a declaration, if it is one.
fn note_living(
    index: &mut IndexMap<Id, Stamp>,
    left: &Table,
    id: &Id,
    stamp: &Stamp,
) -> Result<(), OutOfMemory>
    ensures { OnOk result (IsLifeNoted left.now id.now stamp.now index.old.entries index.new.entries) }
{
    index.insert(*id, *stamp)?;
    match method_of(left, id) {
        Some(method) => {
            index.insert(method, *stamp)?;
            Ok(())
        }
        None => Ok(()),
    }
}

/// Whether a cell tells if its entity lives.
fn tells_life(at: &Cell) -> bool
    ensures { result ≡ same_slot at.now.slot slots.Live }
{
    at.slot == Slot::Live
}

/// The method of which an identity is known as a declaration, if it is one.
fn method_of(left: &Table, id: &Id) -> Option<Id>
    ensures { result ≡ method_of_decl (get left.now.known id.now) }
{
    match left.known(*id) {
        Some(Known::Decl(method)) => Some(method),
        _ => None,
    }
}
