//! The steps that a line may name.
ghost use Rattle.std.specs.Prelude.{◌≡◌, ◌≢◌, ◌≤◌, ℕ, [], Some, None, IfOk};
ghost use Rattle.std.specs.FinMap as map;
ghost use Rattle.mol_base.specs.declared.ident.Id.{Id as Identity};
ghost use Rattle.mol_values_types.specs.declared.known.Known.TheVariants as knowns;
ghost use Rattle.bench_table.specs.Classes as spec;

use crate::classes::{fill, fill_each, name_of, rename_all};
use mol_base::{OutOfMemory, Tag};
use mol_table::Table;
use mol_table_numbers::same;
use mol_values_types::{Kind, Value};
use std::alloc::Global;

/// The table of so many classes of a base.
fn filled(alloc: Global, base: u32) -> Result<Table, OutOfMemory>
    ensures known { IfOk result (λ table. (number : ℕ) → 1 ≤ number → number ≤ base → map.get table.known (spec.id_of [] number) ≡ Some knowns.Class) }
    ensures elsewhere { IfOk result (λ table. (id : Identity) → id.tag ≢ [] → map.get table.known id ≡ None) }
{
    let mut table = Table::new(alloc);
    fill(alloc, &mut table, Tag::base(), base)?;
    Ok(table)
}

/// Whether this is a living class of the name.
fn is_named(table: &Table, number: u32, name: &[u8]) -> bool {
    let cell = name_of(number);
    match table.get(&cell) {
        Some(Value::Name(text)) => {
            text.bytes() == name && table.kind(cell.id) == Some(Kind::Class) && table.lives(cell.id)
        }
        _ => false,
    }
}

/// How many classes of the base, numbered up to this number, live and have this name.
fn count_named(table: &Table, base: u32, name: &[u8]) -> u64 {
    let mut found = 0u64;
    for index in 0..base {
        if is_named(table, index + 1, name) {
            found = found.saturating_add(1);
        }
    }
    found
}

/// How many identities a table has where it is the same as the wanted one, else none.
fn count_if_same(found: &Table, wanted: &Table) -> u64 {
    if same(found, wanted) {
        found.ids().len() as u64
    } else {
        0
    }
}

/// How many identities there are once so many classes were added.
fn count_added(alloc: Global, base: u32) -> Result<u64, OutOfMemory> {
    Ok(filled(alloc, base)?.ids().len() as u64)
}

/// How many classes have their name.
fn count_read(alloc: Global, base: u32) -> Result<u64, OutOfMemory> {
    Ok(count_named(&filled(alloc, base)?, base, b"C"))
}

/// How many classes have a new name once all have been given one.
fn count_renamed(alloc: Global, base: u32) -> Result<u64, OutOfMemory> {
    let mut table = filled(alloc, base)?;
    rename_all(alloc, &mut table, base)?;
    Ok(count_named(&table, base, b"D"))
}

/// How many identities a tidied table has.
fn count_tidied(alloc: Global, base: u32) -> Result<u64, OutOfMemory> {
    let table = filled(alloc, base)?;
    Ok(count_if_same(&table.tidy(alloc)?, &table))
}

/// How many identities a copy has.
fn count_copied(alloc: Global, base: u32) -> Result<u64, OutOfMemory> {
    let table = filled(alloc, base)?;
    Ok(count_if_same(&table.copy(alloc)?, &table))
}

/// The table of so many classes of a base, and so many of a tag after them.
fn with_greater(alloc: Global, greater: Tag, base: u32, count: u32) -> Result<Table, OutOfMemory>
    requires { greater ≢ [] }
    ensures { IfOk result (λ table. (id : Identity) → id.tag ≢ [] → id.tag ≢ greater → map.get table.known id ≡ None) }
{
    let mut table = filled(alloc, base)?;
    fill(alloc, &mut table, greater, count)?;
    Ok(table)
}

/// How many identities there are once as many classes of a lesser tag were added in one call.
fn count_together(
    alloc: Global,
    lesser: Tag,
    greater: Tag,
    base: u32,
    count: u32,
) -> Result<u64, OutOfMemory>
    requires some_lesser { lesser ≢ [] }
    requires some_greater { greater ≢ [] }
    requires apart { lesser ≢ greater }
{
    let mut table = with_greater(alloc, greater, base, count)?;
    fill(alloc, &mut table, lesser, count)?;
    Ok(table.ids().len() as u64)
}

/// How many identities there are once as many classes of a lesser tag were added one call each.
fn count_each(
    alloc: Global,
    lesser: Tag,
    greater: Tag,
    base: u32,
    count: u32,
) -> Result<u64, OutOfMemory>
    requires some_lesser { lesser ≢ [] }
    requires some_greater { greater ≢ [] }
    requires apart { lesser ≢ greater }
{
    let mut table = with_greater(alloc, greater, base, count)?;
    fill_each(alloc, &mut table, lesser, count)?;
    Ok(table.ids().len() as u64)
}

/// What a step counts over so many classes of a base, so many of a tag after them, and as many of a lesser one;
/// `None` where there is no such step.
fn count_of_tags(
    alloc: Global,
    step: &str,
    base: u32,
    count: u32,
) -> Result<Option<u64>, OutOfMemory> {
    let Ok(lesser) = Tag::parse(b"ann") else {
        return Ok(None);
    };
    let Ok(greater) = Tag::parse(b"bob") else {
        return Ok(None);
    };
    let counted = match step {
        "greater" => with_greater(alloc, greater, base, count)?.ids().len() as u64,
        "together" => count_together(alloc, lesser, greater, base, count)?,
        "each" => count_each(alloc, lesser, greater, base, count)?,
        _ => return Ok(None),
    };
    Ok(Some(counted))
}

/// What a step counts over so many classes of a base, and so many of each tag; `None` where there is no such step.
pub fn count_after(
    alloc: Global,
    step: &str,
    base: u32,
    count: u32,
) -> Result<Option<u64>, OutOfMemory> {
    let counted = match step {
        "add" => count_added(alloc, base)?,
        "read" => count_read(alloc, base)?,
        "set" => count_renamed(alloc, base)?,
        "tidy" => count_tidied(alloc, base)?,
        "copy" => count_copied(alloc, base)?,
        _ => return count_of_tags(alloc, step, base, count),
    };
    Ok(Some(counted))
}
