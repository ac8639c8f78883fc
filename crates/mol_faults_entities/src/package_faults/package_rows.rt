//! The packages of classes, in order.
ghost use Rattle.std.specs.Prelude.{◌≡◌, ◌++◌, IfOk, OnOk};
ghost use Rattle.std.specs.Cmp.Lexicographic.{slice_cmp};
ghost use Rattle.std.specs.List.Sorted.{IsSortedBy};
ghost use Rattle.std.specs.Option.{option_to_list};
ghost use Rattle.std.specs.Ordering.{nat_cmp};
ghost use Rattle.mol_faults_entities.specs.package_faults.Packages.{HasRows, comes_before, dotted_package, living_row, row_of};

use mol_base::{Id, OutOfMemory, Text};
use mol_scope_classes::{is_living_class, package_of};
use mol_table::Table;
use std::alloc::Global;
use std::cmp::Ordering;

/// The package of a class, with a dot behind it, and the class.
#[derive(Drop)]
pub(crate) struct PackageRow {
    pub dotted: Text,
    pub class: Id,
}

impl PackageRow {
    /// How the package compares with these bytes, byte by byte.
    pub(crate) fn compare(&self, dotted: &[u8]) -> Ordering
        ensures { result ≡ slice_cmp nat_cmp self.now.dotted dotted.now }
    {
        self.dotted.bytes().cmp(&dotted)
    }
}

/// The packages of the classes that live, in the order of their bytes. The time is that of sorting them.
pub(crate) fn package_rows(alloc: Global, table: &Table) -> Result<Vec<PackageRow>, OutOfMemory>
    ensures sorted { IfOk result (λ rows. IsSortedBy comes_before rows.items) }
    ensures rows { IfOk result (λ rows. HasRows table.now rows.items) }
{
    let mut rows = unsorted_rows(alloc, table)?;
    rows.sort_by(|first, second| first.compare(second.dotted.bytes()))?;
    Ok(rows)
}

/// The packages of the classes that live, in the order of the classes.
fn unsorted_rows(alloc: Global, table: &Table) -> Result<Vec<PackageRow>, OutOfMemory>
    ensures { IfOk result (λ rows. HasRows table.now rows.items) }
{
    let mut rows = Vec::new(alloc);
    for id in table.ids() {
        let row = living_row(alloc, table, id)?;
        add_row(&mut rows, row)?;
    }
    Ok(rows)
}

/// Adds a row, if there is one.
fn add_row(rows: &mut Vec<PackageRow>, row: Option<PackageRow>) -> Result<(), OutOfMemory>
    ensures { OnOk result (rows.new.items ≡ rows.old.items ++ option_to_list row) }
{
    if let Some(row) = row {
        rows.push(row)?;
    }
    Ok(())
}

/// The package of a class, if it lives.
fn living_row(alloc: Global, table: &Table, id: &Id) -> Result<Option<PackageRow>, OutOfMemory>
    ensures { IfOk result (λ row. row ≡ living_row table.now id.now) }
{
    if is_living_class(table, id) {
        let row = package_row(alloc, table, id)?;
        Ok(Some(row))
    } else {
        Ok(None)
    }
}

/// The package of a class, with a dot behind it, and the class.
fn package_row(alloc: Global, table: &Table, class: &Id) -> Result<PackageRow, OutOfMemory>
    ensures { IfOk result (λ row. row ≡ row_of table.now class.now) }
{
    let dotted = dotted_package(alloc, table, class)?;
    Ok(PackageRow {
        dotted,
        class: *class,
    })
}

/// The package of a class, with a dot behind it.
fn dotted_package(alloc: Global, table: &Table, class: &Id) -> Result<Text, OutOfMemory>
    ensures { IfOk result (λ text. text ≡ dotted_package table.now class.now) }
{
    let mut text = String::from_str(alloc, package_of(table, class))?;
    text.push_str(".")?;
    Ok(Text::from_string(text))
}
