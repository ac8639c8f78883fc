//! Classes in packages that are classes.
ghost use Rattle.std.specs.Prelude.{◌≡◌, ◌++◌, IfOk, OnOk, filter_map};
ghost use Rattle.std.specs.List.Sorted.{IsSortedBy};
ghost use Rattle.mol_faults_entities.specs.package_faults.Packages.{HasRows, StartsAt, comes_before, dotted_name};
ghost use Rattle.mol_faults_entities.specs.package_faults.Pairs.{HasPairs, inside_of, pairs_at};

use crate::package_faults::package_rows::PackageRow;
use mol_base::{Id, OutOfMemory, Text};
use mol_scope_classes::{is_living_class, name_of, package_of};
use mol_table::Table;
use std::alloc::Global;

/// A class whose full name is the package of another, or that this package is in, and that other class.
#[derive(Clone, Copy, PartialEq, Eq, PartialOrd, Ord)]
pub(crate) struct Inside {
    pub class: Id,
    pub inside: Id,
}

/// All such pairs, of packages in order. The time is that of a look-up for each class, and of the pairs.
pub(crate) fn pairs(
    alloc: Global,
    table: &Table,
    rows: &[PackageRow],
) -> Result<Vec<Inside>, OutOfMemory>
    requires sorted { IsSortedBy comes_before rows.now }
    requires rows { HasRows table.now rows.now }
    ensures { IfOk result (λ pairs. HasPairs table.now pairs.items) }
{
    let mut pairs = Vec::new(alloc);
    for id in table.ids() {
        add_pairs(alloc, table, rows, &mut pairs, id)?;
    }
    Ok(pairs)
}

/// Adds the pairs of one class, if it lives.
fn add_pairs(
    alloc: Global,
    table: &Table,
    rows: &[PackageRow],
    pairs: &mut Vec<Inside>,
    id: &Id,
) -> Result<(), OutOfMemory>
    requires { IsSortedBy comes_before rows.now }
    ensures { OnOk result (pairs.new.items ≡ pairs.old.items ++ pairs_at table.now rows.now id.now) }
{
    if is_living_class(table, id) {
        let name = dotted_name(alloc, table, id)?;
        add_inside(pairs, rows, id, name.bytes())
    } else {
        Ok(())
    }
}

/// Adds the pairs of a class with this name: with a dot behind it begins the packages that it is or that are in it, and these stand
/// together.
fn add_inside(
    pairs: &mut Vec<Inside>,
    rows: &[PackageRow],
    class: &Id,
    name: &[u8],
) -> Result<(), OutOfMemory>
    requires { IsSortedBy comes_before rows.now }
    ensures { OnOk result (pairs.new.items ≡ pairs.old.items ++ filter_map (inside_of class.now name.now) rows.now) }
{
    let run = rows_from(rows, name);
    for row in run {
        if !row.dotted.bytes().starts_with(name) {
            return Ok(());
        }
        pairs.push(Inside {
            class: *class,
            inside: row.class,
        })?;
    }
    Ok(())
}

/// The rows from the first on whose package does not come before these bytes.
fn rows_from<'a>(rows: &'a [PackageRow], name: &[u8]) -> &'a [PackageRow]
    requires { IsSortedBy comes_before rows.now }
    ensures { StartsAt name.now rows.now result.now }
{
    let place = rows.partition_point(|row| row.compare(name).is_lt());
    let (_, run) = rows.split_at(place);
    run
}

/// The full name of a class (JLS 6.7), with a dot behind it.
fn dotted_name(alloc: Global, table: &Table, class: &Id) -> Result<Text, OutOfMemory>
    ensures { IfOk result (λ text. text ≡ dotted_name table.now class.now) }
{
    let mut text = String::from_str(alloc, package_of(table, class))?;
    text.push_str(".")?;
    text.push_str(name_of(table, class))?;
    text.push_str(".")?;
    Ok(Text::from_string(text))
}
