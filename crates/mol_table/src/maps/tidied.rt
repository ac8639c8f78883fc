//! The maps of a table with each value tidied.
ghost use Rattle.std.specs.Prelude.{◌≡◌, IfOk, OnOk, map};
ghost use Rattle.std.specs.FinMap.{from_entries, entries};
ghost use Rattle.mol_table.specs.Maps.{cells_of, program_in, counts_in, IsOrdered};
ghost use Rattle.mol_table_rules.specs.Tidy.{tidy};
ghost use Rattle.mol_table.specs.Tidying.{changed_at, entry_by, value_by};

use crate::maps::Maps;
use crate::maps::copy::{copy_known, copy_numbers};
use crate::maps::first_cells::copy_places;
use crate::tidy::tidy_value;
use indexmap::IndexMap;
use mol_base::{Id, OutOfMemory};
use mol_values_types::{Cell, Value};
use std::alloc::Global;

impl Maps {
    /// Maps with each value tidied. The time is that of a look-up for each cell and each identity, and
    /// one for each call in the values.
    pub(crate) fn tidied(&self, alloc: Global) -> Result<Maps, OutOfMemory>
        ensures program { IfOk result (λ tidied. program_in tidied ≡ tidy (program_in self.now)) }
        ensures counts { IfOk result (λ tidied. counts_in tidied ≡ counts_in self.now) }
        ensures ordered { IfOk result IsOrdered }
    {
        let index = self.bare_constructors(alloc)?;
        Ok(Maps {
            cells: tidied_cells(alloc, self, &index)?,
            known: copy_known(alloc, &self.known)?,
            living: copy_numbers(alloc, &self.living)?,
            first_cells: copy_places(alloc, &self.first_cells),
        })
    }

    /// Tidies each value where it stands. The time is that of `tidied`. Where there is no memory, some values are tidied and others are not.
    pub(crate) fn tidy_in_place(&mut self, alloc: Global) -> Result<(), OutOfMemory>
        ensures program { OnOk result (program_in self.new ≡ tidy (program_in self.old)) }
        ensures rest { self.new ≡ record self.old { cells = self.new.cells } }
    {
        let index = self.bare_constructors(alloc)?;
        self.tidy_values(alloc, &index)?;
        Ok(())
    }

    /// Tidies each value where it stands, by an index of constructors.
    fn tidy_values(&mut self, alloc: Global, index: &IndexMap<Id, Id>) -> Result<(), OutOfMemory>
        ensures cells { OnOk result (self.new.cells.entries ≡ map (entry_by self.old index.now.entries) self.old.cells.entries) }
        ensures rest { self.new ≡ record self.old { cells = self.new.cells } }
    {
        for place in 0..self.cells.len() {
            self.tidy_at(alloc, index, place)?;
        }
        Ok(())
    }

    /// Tidies the value at a place.
    fn tidy_at(
        &mut self,
        alloc: Global,
        index: &IndexMap<Id, Id>,
        place: usize,
    ) -> Result<(), OutOfMemory>
        ensures cells { OnOk result (self.new.cells.entries
            ≡ changed_at (value_by self.old index.now.entries) place self.old.cells.entries) }
        ensures rest { self.new ≡ record self.old { cells = self.new.cells } }
    {
        let entries = self.cells.as_slice();
        let Some((at, value)) = entries.get_index(place) else {
            return Ok(());
        };
        let cell = *at;
        let tidied = tidy_value(alloc, self, index, value)?;
        drop(self.cells.insert(cell, tidied)?);
        Ok(())
    }
}

/// The tidied values in the same cells.
fn tidied_cells(
    alloc: Global,
    maps: &Maps,
    index: &IndexMap<Id, Id>,
) -> Result<IndexMap<Cell, Value>, OutOfMemory>
    ensures { IfOk result (λ tidied. cells_of tidied.entries
        ≡ from_entries (map (entry_by maps.now index.now.entries) (entries (program_in maps.now).cells))) }
{
    let mut tidied = IndexMap::with_capacity(alloc, maps.cells.len())?;
    for cell in maps.cells.keys().as_slice() {
        if let Some(value) = maps.cells.get(cell) {
            drop(tidied.insert(*cell, tidy_value(alloc, maps, index, value)?)?);
        }
    }
    Ok(tidied)
}
