//! Where the cells of a base's identities begin. A base numbers its identities from 1 on, so each has a
//! place without a look-up. What stands there is compared before it is used: nothing rests on these places.
ghost use Rattle.std.specs.Prelude.{◌≡◌, IfSome, Some};
ghost use Rattle.std.specs.FinMap as map;
ghost use Rattle.mol_table.specs.Maps.{program_in};

use crate::maps::Maps;
use mol_base::{Id, Tag};
use mol_values_types::{Cell, Slot, Value};
use std::alloc::Global;

impl Maps {
    /// The value of a cell that stands near the first cell of its identity, if it does.
    pub(crate) fn value_nearby(&self, cell: &Cell) -> Option<&Value>
        ensures { IfSome result (λ value. map.get (program_in self.now).cells cell.now ≡ Some value.now) }
    {
        if cell.id.tag != Tag::base() {
            return None;
        }
        let first = *self.first_cells.get(place_in_base(&cell.id))?;
        for place in first..first.saturating_add(Slot::ALL.len()) {
            let (at, value) = self.cells.get_index(place)?;
            if at.slot == cell.slot {
                return if at == cell { Some(value) } else { None };
            }
        }
        None
    }

    /// Notes where the cells of a base's identities begin, of those cells that stand from a place on. For want of
    /// memory nothing is noted.
    pub fn note_first_cells(&mut self, from: usize)
        ensures { self.new ≡ record self.old { first_cells = self.new.first_cells } }
    {
        if self
            .first_cells
            .resize(self.known.len(), usize::MAX)
            .is_err()
        {
            return;
        }
        for place in (from..self.cells.len()).rev() {
            if let Some((cell, _)) = self.cells.get_index(place) {
                put_place(&mut self.first_cells, &cell.id, place);
            }
        }
    }
}

/// Notes a place for an identity, if it is one of a base and there is room for it.
fn put_place(places: &mut [usize], id: &Id, place: usize) {
    if id.tag == Tag::base() {
        if let Some(noted) = places.get_mut(place_in_base(id)) {
            *noted = place;
        }
    }
}

/// The place of an identity among those of its base, from 0 on.
pub(crate) fn place_in_base(id: &Id) -> usize {
    (id.num as usize).saturating_sub(1)
}

/// As many of the places as there is memory for: all, or none.
pub(crate) fn copy_places(alloc: Global, places: &[usize]) -> Vec<usize> {
    let mut copy = Vec::new(alloc);
    let _ = copy.extend_from_slice(places);
    copy
}
