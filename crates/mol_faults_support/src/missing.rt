//! Faults of cells that refer to what is gone.
ghost use Rattle.std.specs.Prelude.{◌≡◌, ◌++◌, ◌∷◌, [], IfOk, OnOk};
ghost use Rattle.std.specs.FinMap as map;
ghost use Rattle.mol_spell_rules.specs.FaultList.{missing};
ghost use Rattle.mol_faults_support.specs.Cells.{declared_method, params_beside};
ghost use Rattle.mol_faults_support.specs.Rests.{Adds, IsOfCell, IsOfValue, RestsOn};
ghost use Rattle.mol_table_rules.specs.Program.{method_of_param};

use crate::calls::{called_methods, created_constructors};
use crate::declaration_index::DeclarationIndex;
use crate::life::lives;
use crate::slots::{add_cell, add_lives, add_params};
use mol_base::{Id, OutOfMemory};
use mol_table::Table;
use mol_values_types::{Cell, Known, Slot, Value};
use std::alloc::Global;

/// A cell that refers to what is gone rests on itself, on what says whether its entity and the target live, and on what decides to what
/// its value refers once it is tidied.
pub(crate) fn missing(
    alloc: Global,
    index: &DeclarationIndex<'_>,
    at: &Cell,
    target: &Id,
) -> Result<Vec<Cell>, OutOfMemory>
    ensures { IfOk result (λ cells. RestsOn index.now (missing at.now target.now) cells.items) }
{
    let mut cells = lives(alloc, index, &[at.id, *target])?;
    add_beside(&mut cells, index.table(), at, target)?;
    add_of_cell(alloc, index, &mut cells, at)?;
    Ok(cells)
}

/// Adds the cell, the method that it is of, and the parameters that the target is one of.
fn add_beside(
    cells: &mut Vec<Cell>,
    table: &Table,
    at: &Cell,
    target: &Id,
) -> Result<(), OutOfMemory>
    ensures { OnOk result (cells.new.items ≡ cells.old.items
        ++ (at.now ∷ (declared_method at.now.id (map.get table.now.known at.now.id)
        ++ params_beside (method_of_param table.now target.now)))) }
{
    add_cell(cells, &at.id, at.slot)?;
    add_declared_method(cells, table, &at.id)?;
    add_params_beside(cells, table, target)
}

/// Adds the method of a declaration, if this is one.
fn add_declared_method(cells: &mut Vec<Cell>, table: &Table, id: &Id) -> Result<(), OutOfMemory>
    ensures { OnOk result (cells.new.items ≡ cells.old.items ++ declared_method id.now (map.get table.now.known id.now)) }
{
    match table.known(*id) {
        Some(Known::Decl(_)) => add_cell(cells, id, Slot::Method),
        _ => Ok(()),
    }
}

/// Adds the parameters of the method of a parameter, if this is one.
fn add_params_beside(cells: &mut Vec<Cell>, table: &Table, id: &Id) -> Result<(), OutOfMemory>
    ensures { OnOk result (cells.new.items ≡ cells.old.items ++ params_beside (method_of_param table.now id.now)) }
{
    match table.method_of_param(*id) {
        Some(method) => add_cell(cells, &method, Slot::Params),
        None => Ok(()),
    }
}

/// Adds what the value of a cell asks for, where it has one.
fn add_of_cell(
    alloc: Global,
    index: &DeclarationIndex<'_>,
    cells: &mut Vec<Cell>,
    at: &Cell,
) -> Result<(), OutOfMemory>
    ensures { OnOk result (Adds cells.old.items cells.new.items (IsOfCell index.now at.now)) }
{
    let table = index.table();
    match table.get(at) {
        Some(value) => add_of_value(alloc, index, cells, value),
        None => Ok(()),
    }
}

/// Adds the parameters of the methods that a value calls, and whether the constructors live for which it may ask.
fn add_of_value(
    alloc: Global,
    index: &DeclarationIndex<'_>,
    cells: &mut Vec<Cell>,
    value: &Value,
) -> Result<(), OutOfMemory>
    ensures { OnOk result (Adds cells.old.items cells.new.items (IsOfValue index.now value.now)) }
{
    let called = called_methods(alloc, value)?;
    let methods = called.as_slice();
    let created = created_constructors(alloc, index, value)?;
    let constructors = created.as_slice();
    add_params(cells, methods)?;
    add_lives(cells, constructors)
}
