//! Misread names by where they stand.
ghost use Rattle.std.specs.Prelude.{◌≡◌, ◌↔◌, Contains, IfOk, map};
ghost use Rattle.std.specs.List.Sorted.{IsPermutation, IsSorted};
ghost use Rattle.mol_faults.specs.Names.{names_cmp, place, place_cmp, place_of, AreNames};
ghost use Rattle.mol_faults_misread.specs.declared.misread_faults.names.MisreadName.{MisreadName as Kept};
ghost use Rattle.mol_faults_misread.specs.misread_faults.Found.{Found, IsMisread, kept_name};
ghost use Rattle.mol_table_rules.specs.Tidy.{tidy};

use mol_base::OutOfMemory;
use mol_faults_misread::{MisreadName, misread_names};
use mol_spell_names::ProgramIndex;
use mol_table::Table;
use mol_values_types::Cell;
use std::alloc::Global;
use std::cmp::Ordering;

/// The misread names of a program, by entity and number. The time is that of finding and of sorting them.
pub(crate) fn names_of(alloc: Global, table: &Table) -> Result<Vec<MisreadName>, OutOfMemory>
    ensures { IfOk result (λ names. AreNames (tidy table.now) names.items) }
{
    let tidied = table.tidy(alloc)?;
    let names = names_of_tidied(alloc, &tidied)?;
    by_place(names)
}

/// The misread names of a table, whose indexes are made.
fn names_of_tidied(alloc: Global, tidied: &Table) -> Result<Vec<MisreadName>, OutOfMemory>
    ensures { IfOk result (λ names. (found : Found) → Contains (map kept_name names.items) found ↔ IsMisread tidied.now found) }
{
    let index = ProgramIndex::new(alloc, tidied)?;
    misread_names(alloc, &index)
}

/// The same, sorted by entity and number.
fn by_place(mut names: Vec<MisreadName>) -> Result<Vec<MisreadName>, OutOfMemory>
    ensures { IfOk result (λ sorted. IsPermutation names.items sorted.items × IsSorted names_cmp sorted.items) }
{
    names.sort_by(|former, latter| compare(former, &latter.at, latter.misread.number))?;
    Ok(names)
}

/// Those of this number in some cell of the entity that this cell is of. It takes no memory, and the time is logarithmic in the number of
/// all.
pub(crate) fn names_at<'a>(names: &'a [MisreadName], at: &Cell, number: u32) -> &'a [MisreadName]
    requires { IsSorted names_cmp names.now }
    ensures { (name : Kept) → Contains result.now name ↔ (Contains names.now name × (place_of name ≡ place at.now number)) }
{
    let start = names.partition_point(|name| compare(name, at, number).is_lt());
    let later = &names[start..];
    let count = later.partition_point(|name| compare(name, at, number).is_eq());
    &later[..count]
}

/// How a name compares to a number in a cell, by entity and number.
fn compare(name: &MisreadName, at: &Cell, number: u32) -> Ordering
    ensures { result ≡ place_cmp (place_of name.now) (place at.now number) }
{
    name.at
        .id
        .cmp(&at.id)
        .then(name.misread.number.cmp(&number))
}
