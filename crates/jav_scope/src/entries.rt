//! How classes and imports stand in an index.
ghost use Rattle.std.specs.Prelude.{◌≡◌, ◌++◌, ◌∷◌, IfOk, OnOk, map, flat_map};
ghost use Rattle.jav_names.specs.DottedNames.{dot, simple_name};
ghost use Rattle.jav_names.specs.UnitViews.{numbered};
ghost use Rattle.jav_scope.specs.Entries.{units_of, class_entry, import_entry, import_entries};

use crate::source::SourceUnit;
use jav_names::index::Entry;
use jav_tree::Unit;
use mol_base::{OutOfMemory, Text, number_of};
use std::alloc::Global;

/// The full names of the classes, each with the number of its file.
pub(crate) fn full_names(alloc: Global, sources: &[SourceUnit]) -> Result<Vec<Entry>, OutOfMemory>
    ensures { IfOk result (λ entries. entries.items ≡ map class_entry (numbered (units_of sources.now))) }
{
    let mut entries = Vec::new(alloc);
    for (place, source) in sources.iter().enumerate() {
        let number = number_of(place)?;
        let entry = class_entry(alloc, number, &source.unit)?;
        entries.push(entry)?;
    }
    Ok(entries)
}

/// How the class of a file stands among the full names.
fn class_entry(alloc: Global, number: u32, unit: &Unit) -> Result<Entry, OutOfMemory>
    ensures { IfOk result (λ entry. entry ≡ class_entry (number, unit.now)) }
{
    let name = with_dot(alloc, unit.package.as_str(), unit.class.name.as_str())?;
    Ok(Entry {
        owner: 0,
        arity: 0,
        name,
        place: number,
    })
}

/// Two names with a dot between them.
fn with_dot(alloc: Global, front: &str, back: &str) -> Result<Text, OutOfMemory>
    ensures { IfOk result (λ text. text ≡ front.now ++ dot ∷ back.now) }
{
    let mut text = String::from_str(alloc, front)?;
    text.push_str(".")?;
    text.push_str(back)?;
    Ok(Text::from_string(text))
}

/// The simple names of the imports of each file, each with its place there.
pub(crate) fn imported_names(
    alloc: Global,
    sources: &[SourceUnit],
) -> Result<Vec<Entry>, OutOfMemory>
    ensures { IfOk result (λ entries. entries.items ≡ flat_map import_entries (numbered (units_of sources.now))) }
{
    let mut entries = Vec::new(alloc);
    for (place, source) in sources.iter().enumerate() {
        let number = number_of(place)?;
        let imports = source.unit.imports.items();
        add_imports(alloc, &mut entries, number, imports)?;
    }
    Ok(entries)
}

/// Adds the imports of the file of this number.
fn add_imports(
    alloc: Global,
    entries: &mut Vec<Entry>,
    unit: u32,
    imports: &[Text],
) -> Result<(), OutOfMemory>
    ensures { OnOk result (entries.new.items ≡ entries.old.items ++ map (import_entry unit) (numbered imports.now)) }
{
    for (place, full) in imports.iter().enumerate() {
        let number = number_of(place)?;
        let entry = import_entry(alloc, unit, number, full)?;
        entries.push(entry)?;
    }
    Ok(())
}

/// How an import stands among those of all files.
fn import_entry(alloc: Global, unit: u32, place: u32, full: &Text) -> Result<Entry, OutOfMemory>
    ensures { IfOk result (λ entry. entry ≡ import_entry unit (place, full.now)) }
{
    let name = Text::from_str(alloc, simple_name(full.as_str()))?;
    Ok(Entry {
        owner: unit,
        arity: 0,
        name,
        place,
    })
}

/// The simple name of what a text names: what follows its last dot, or the whole text where it has none (JLS 6.2). It takes no memory.
pub fn simple_name(text: &str) -> &str
    ensures { result.now ≡ simple_name text.now }
{
    match text.rsplit_once('.') {
        Some((_front, last)) => last,
        None => text,
    }
}
