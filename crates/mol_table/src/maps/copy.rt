//! Copies of the maps of a table.
ghost use Rattle.std.specs.Prelude.{◌≡◌, IfOk};
ghost use Rattle.mol_table.specs.Maps.{cells_of, knowns_of, counts_of, program_in, counts_in, IsOrdered, AreOrdered};

use crate::maps::Maps;
use crate::maps::first_cells::copy_places;
use indexmap::IndexMap;
use mol_base::{Id, OutOfMemory};
use mol_values_types::{Cell, Known, Value};
use std::alloc::Global;

impl Maps {
    /// Maps with the same entries. The time is that of a look-up for each.
    pub(crate) fn copy(&self, alloc: Global) -> Result<Maps, OutOfMemory>
        ensures program { IfOk result (λ copy. program_in copy ≡ program_in self.now) }
        ensures counts { IfOk result (λ copy. counts_in copy ≡ counts_in self.now) }
        ensures ordered { IfOk result IsOrdered }
    {
        Ok(Maps {
            cells: copy_cells(alloc, &self.cells)?,
            known: copy_known(alloc, &self.known)?,
            living: copy_numbers(alloc, &self.living)?,
            first_cells: copy_places(alloc, &self.first_cells),
        })
    }
}

/// The same values in the same cells.
fn copy_cells(
    alloc: Global,
    cells: &IndexMap<Cell, Value>,
) -> Result<IndexMap<Cell, Value>, OutOfMemory>
    ensures { IfOk result (λ copy. cells_of copy.entries ≡ cells_of cells.now.entries) }
{
    let mut copy = IndexMap::with_capacity(alloc, cells.len())?;
    for cell in cells.keys().as_slice() {
        if let Some(value) = cells.get(cell) {
            drop(copy.insert(*cell, value.copy(alloc)?)?);
        }
    }
    Ok(copy)
}

/// The same identities, known as the same.
pub(crate) fn copy_known(
    alloc: Global,
    known: &IndexMap<Id, Known>,
) -> Result<IndexMap<Id, Known>, OutOfMemory>
    ensures known { IfOk result (λ copy. knowns_of copy.entries ≡ knowns_of known.now.entries) }
    ensures ordered { IfOk result (λ copy. AreOrdered copy.entries) }
{
    let mut copy = IndexMap::with_capacity(alloc, known.len())?;
    for id in known.keys().as_slice() {
        if let Some(what) = known.get(id) {
            let _ = copy.insert_sorted(*id, *what)?;
        }
    }
    Ok(copy)
}

/// The same numbers for the same methods.
pub(crate) fn copy_numbers(
    alloc: Global,
    numbers: &IndexMap<Id, usize>,
) -> Result<IndexMap<Id, usize>, OutOfMemory>
    ensures { IfOk result (λ copy. counts_of copy.entries ≡ counts_of numbers.now.entries) }
{
    let mut copy = IndexMap::with_capacity(alloc, numbers.len())?;
    for id in numbers.keys().as_slice() {
        if let Some(number) = numbers.get(id) {
            let _ = copy.insert(*id, *number)?;
        }
    }
    Ok(copy)
}
