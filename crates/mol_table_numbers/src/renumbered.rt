//! Tables with the identities of a base.
ghost use Rattle.std.specs.Prelude.{◌≡◌, IfOk};
ghost use Rattle.mol_table_numbers.specs.Looked.{HasNames, HasLiving, renumbered_counts};
ghost use Rattle.mol_table.specs.Maps.{cells_of, knowns_of, counts_of, program_in, counts_in, Stands, AreOrdered};
ghost use Rattle.mol_table_rules.specs.Renumber.{renumber, MayRenumber};

use crate::names::new_names;
use crate::order::printed_order;
use indexmap::IndexMap;
use mol_base::{Id, OutOfMemory};
use mol_table::{Maps, Table};
use mol_values::{rename_known, rename_value};
use mol_values_types::{Cell, Known, Value};
use std::alloc::Global;

/// The table with what lives alone, under the identities of a base: numbered from 1, with the empty tag.
/// Classes go first, by the paths of their files; then fields and declarations class by class, in the
/// order of their identities, in which they print; then methods in the order of their topmost
/// declarations, each followed by its present parameters. All that names an identity names the new one.
///
/// The table is tidied, each method that lives has a topmost declaration, what lives refers to what is
/// there, and there are less than 2 to the 32nd identities that live. A table without faults that is
/// tidied is so. The time is that of some look-ups for each cell and each identity, and of sorting what
/// lives. Where superclasses run in a circle, topmost declarations are looked for by a pass over all
/// identities for each living declaration, and one more for each declaration of its method that is tried,
/// which goes up from each living declaration of the method. `Err` is want of memory.
pub fn renumber(alloc: Global, table: &Table) -> Result<Table, OutOfMemory>
    requires { MayRenumber table.now }
    ensures { IfOk result (λ renumbered. renumbered ≡ renumber table.now) }
{
    Ok(Table::of_maps(renumbered(alloc, table.maps())?))
}

/// Maps with what lives, numbered as a base is. The time is that of some look-ups for each cell and
/// each identity, and of sorting what lives.
fn renumbered(alloc: Global, maps: &Maps) -> Result<Maps, OutOfMemory>
    requires stands { Stands maps.now }
    requires may { MayRenumber (program_in maps.now) }
    ensures program { IfOk result (λ renumbered. program_in renumbered ≡ renumber (program_in maps.now)) }
    ensures stands { IfOk result Stands }
{
    let order = printed_order(alloc, maps)?;
    let names = new_names(alloc, &order)?;
    let mut renumbered = Maps {
        cells: renamed_cells(alloc, maps, &names)?,
        known: renamed_known(alloc, maps, &order, &names)?,
        living: renamed_numbers(alloc, maps, &names)?,
        first_cells: Vec::new(alloc),
    };
    renumbered.note_first_cells(0);
    Ok(renumbered)
}

/// The cells of what lives, under the new identities, with the new identities in their values.
fn renamed_cells(
    alloc: Global,
    maps: &Maps,
    names: &IndexMap<Id, Id>,
) -> Result<IndexMap<Cell, Value>, OutOfMemory>
    requires { HasNames (program_in maps.now) names.now.entries }
    ensures { IfOk result (λ cells. cells_of cells.entries ≡ (renumber (program_in maps.now)).cells) }
{
    let mut cells = IndexMap::new(alloc);
    for cell in maps.cells.keys().as_slice() {
        if let Some(name) = names.get(&cell.id) {
            if let Some(value) = maps.cells.get(cell) {
                let at = Cell {
                    id: *name,
                    slot: cell.slot,
                };
                drop(cells.insert(at, rename_value(alloc, names, value)?)?);
            }
        }
    }
    Ok(cells)
}

/// What the identities in a list are known as, under the new identities.
fn renamed_known(
    alloc: Global,
    maps: &Maps,
    order: &[Id],
    names: &IndexMap<Id, Id>,
) -> Result<IndexMap<Id, Known>, OutOfMemory>
    requires names { HasNames (program_in maps.now) names.now.entries }
    requires order { HasLiving (program_in maps.now) order.now }
    ensures known { IfOk result (λ known. knowns_of known.entries ≡ (renumber (program_in maps.now)).known) }
    ensures ordered { IfOk result (λ known. AreOrdered known.entries) }
{
    let mut known = IndexMap::new(alloc);
    for id in order {
        if let Some(name) = names.get(id) {
            if let Some(what) = maps.known.get(id) {
                let _ = known.insert_sorted(*name, rename_known(names, what))?;
            }
        }
    }
    Ok(known)
}

/// The numbers of living declarations, under the new identities.
fn renamed_numbers(
    alloc: Global,
    maps: &Maps,
    names: &IndexMap<Id, Id>,
) -> Result<IndexMap<Id, usize>, OutOfMemory>
    requires { HasNames (program_in maps.now) names.now.entries }
    ensures { IfOk result (λ numbers. counts_of numbers.entries ≡ renumbered_counts (program_in maps.now) (counts_in maps.now)) }
{
    let mut numbers = IndexMap::new(alloc);
    for id in maps.living.keys().as_slice() {
        if let Some(name) = names.get(id) {
            if let Some(number) = maps.living.get(id) {
                let _ = numbers.insert(*name, *number)?;
            }
        }
    }
    Ok(numbers)
}
