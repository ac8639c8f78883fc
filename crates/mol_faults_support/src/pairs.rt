//! Faults of two declarations, and of two classes.
ghost use Rattle.std.specs.Prelude.{◌≡◌, ◌++◌, IfOk, OnOk};
ghost use Rattle.mol_spell_rules.specs.FaultList.{false_override, package_is_class, same_address};
ghost use Rattle.mol_faults_support.specs.Cells.{address_of};
ghost use Rattle.mol_faults_support.specs.Rests.{RestsOn};
ghost use Rattle.mol_table_rules.specs.Program.{Program};

use crate::addresses::add_address;
use crate::slots::{add_each, add_supers};
use crate::ways::classes_between;
use mol_base::{Id, OutOfMemory};
use mol_table::Table;
use mol_values_types::{Cell, Slot};
use std::alloc::Global;

/// Two of one address rest on what says where they are found.
pub(crate) fn same_address(
    alloc: Global,
    table: &Table,
    first: &Id,
    second: &Id,
) -> Result<Vec<Cell>, OutOfMemory>
    ensures { IfOk result (λ cells. RestsOn table.now (same_address first.now second.now) cells.items) }
{
    let mut cells = Vec::new(alloc);
    add_addresses(&mut cells, table, first, second)?;
    Ok(cells)
}

/// Adds the cells that say where both are found.
fn add_addresses(
    cells: &mut Vec<Cell>,
    table: &Table,
    first: &Id,
    second: &Id,
) -> Result<(), OutOfMemory>
    ensures { OnOk result (cells.new.items ≡ cells.old.items ++ (address_of table.now first.now ++ address_of table.now second.now)) }
{
    add_address(cells, table, first)?;
    add_address(cells, table, second)
}

/// Two declarations, one of which would override the other, rest on where they are found, and on the superclasses from the one up to the
/// other.
pub(crate) fn false_override(
    alloc: Global,
    table: &Table,
    first: &Id,
    second: &Id,
) -> Result<Vec<Cell>, OutOfMemory>
    ensures { IfOk result (λ cells. RestsOn table.now (false_override first.now second.now) cells.items) }
{
    let between = classes_between(alloc, table, first, second)?;
    let classes = between.as_slice();
    let mut cells = Vec::new(alloc);
    add_addresses(&mut cells, table, first, second)?;
    add_supers(&mut cells, classes)?;
    Ok(cells)
}

/// A class that is a package rests on the full names of both classes.
pub(crate) fn package_is_class(
    alloc: Global,
    class: &Id,
    inside: &Id,
) -> Result<Vec<Cell>, OutOfMemory>
    ensures { IfOk result (λ cells. (program : Program) → RestsOn program (package_is_class class.now inside.now) cells.items) }
{
    let mut cells = Vec::new(alloc);
    add_each(
        &mut cells,
        &[*class, *inside],
        &[Slot::Live, Slot::Package, Slot::Name],
    )?;
    Ok(cells)
}
