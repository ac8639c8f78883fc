//! Faults of bodies.
ghost use Rattle.std.specs.Prelude.{◌≡◌, ◌++◌, IfOk, OnOk};
ghost use Rattle.std.specs.FinMap as map;
ghost use Rattle.jav_names.specs.DottedNames.{Name};
ghost use Rattle.mol_spell_rules.specs.FaultList.{local_clash};
ghost use Rattle.mol_faults_support.specs.Cells.{declared_params};
ghost use Rattle.mol_faults_support.specs.Rests.{RestsOn};

use crate::slots::{add_cell, add_slots};
use mol_base::{Id, OutOfMemory};
use mol_table::Table;
use mol_values_types::{Cell, Known, Slot};
use std::alloc::Global;

/// A name that is declared twice rests on the body, its declaration, and the parameters.
pub(crate) fn local_clash(alloc: Global, table: &Table, at: &Cell) -> Result<Vec<Cell>, OutOfMemory>
    ensures { IfOk result (λ cells. (name : Name) → RestsOn table.now (local_clash at.now name) cells.items) }
{
    let mut cells = Vec::new(alloc);
    add_cell(&mut cells, &at.id, at.slot)?;
    add_slots(&mut cells, &at.id, &[Slot::Live, Slot::Method])?;
    add_declared_params(&mut cells, table, &at.id)?;
    Ok(cells)
}

/// Adds the parameters of the method of a declaration, if this is one.
fn add_declared_params(cells: &mut Vec<Cell>, table: &Table, id: &Id) -> Result<(), OutOfMemory>
    ensures { OnOk result (cells.new.items ≡ cells.old.items ++ declared_params (map.get table.now.known id.now)) }
{
    match table.known(*id) {
        Some(Known::Decl(method)) => add_cell(cells, &method, Slot::Params),
        _ => Ok(()),
    }
}
