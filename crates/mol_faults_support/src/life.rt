//! The cells that say whether something lives.
ghost use Rattle.std.specs.Prelude.{◌≡◌, ◌++◌, ◌↔◌, Contains, IfOk, OnOk};
ghost use Rattle.std.specs.FinMap as map;
ghost use Rattle.std.specs.List.{flat_map};
ghost use Rattle.mol_faults_support.specs.Cells.{own_life};
ghost use Rattle.mol_faults_support.specs.Rests.{AreLives};
ghost use Rattle.mol_values_types.specs.Slots.{has_slot};
ghost use Rattle.mol_values_types.specs.declared.cell.Slot.TheVariants as slots;

use crate::declaration_index::DeclarationIndex;
use crate::slots::{add_cell, add_lives};
use mol_base::{Id, OutOfMemory};
use mol_table::Table;
use mol_values_types::{Cell, Known, Slot};
use std::alloc::Global;

/// The cells that say whether these live; those of a method are those of its declarations.
pub(crate) fn lives(
    alloc: Global,
    index: &DeclarationIndex<'_>,
    ids: &[Id],
) -> Result<Vec<Cell>, OutOfMemory>
    ensures { IfOk result (λ cells. AreLives index.now ids.now cells.items) }
{
    let found = index.declarations_of(alloc, ids)?;
    let declarations = found.as_slice();
    let mut cells = Vec::new(alloc);
    add_own_lives(&mut cells, index.table(), ids)?;
    add_lives(&mut cells, declarations)?;
    Ok(cells)
}

/// Adds the cells `live` of those of these identities that have one.
fn add_own_lives(cells: &mut Vec<Cell>, table: &Table, ids: &[Id]) -> Result<(), OutOfMemory>
    ensures { OnOk result (cells.new.items ≡ cells.old.items ++ flat_map (own_life table.now) ids.now) }
{
    for id in ids {
        add_own_life(cells, table, id)?;
    }
    Ok(())
}

/// Adds the cell `live` of an identity, where it has one.
fn add_own_life(cells: &mut Vec<Cell>, table: &Table, id: &Id) -> Result<(), OutOfMemory>
    ensures { OnOk result (cells.new.items ≡ cells.old.items ++ own_life table.now id.now) }
{
    if has_life(table, id) {
        add_cell(cells, id, Slot::Live)
    } else {
        Ok(())
    }
}

/// Whether an identity has a cell `live`: a method and a parameter have none.
fn has_life(table: &Table, id: &Id) -> bool
    ensures { result ≡ has_slot (map.get table.now.known id.now) slots.Live }
{
    match table.known(*id) {
        Some(Known::Class) => true,
        Some(Known::Method(_)) => false,
        Some(Known::Decl(_)) => true,
        Some(Known::Field) => true,
        Some(Known::Param(_)) => false,
        None => false,
    }
}
