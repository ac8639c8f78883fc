//! How the imports of a source file stand in an index.
ghost use Rattle.std.specs.Prelude.{◌≡◌, IfOk, map};
ghost use Rattle.jav_scope.specs.Entries.{import_entry};
ghost use Rattle.jav_names.specs.UnitViews.{numbered};

use crate::simple_name;
use jav_names::index::Entry;
use mol_base::{OutOfMemory, Text, number_of};
use std::alloc::Global;

/// The simple names of imports, each with its place among them.
pub(crate) fn simple_names(alloc: Global, imports: &[Text]) -> Result<Vec<Entry>, OutOfMemory>
    ensures { IfOk result (λ entries. entries.items ≡ map (import_entry 0) (numbered imports.now)) }
{
    let mut entries = Vec::new(alloc);
    for (place, full) in imports.iter().enumerate() {
        let number = number_of(place)?;
        let entry = import_entry(alloc, number, full)?;
        entries.push(entry)?;
    }
    Ok(entries)
}

/// How an import stands among them.
fn import_entry(alloc: Global, place: u32, full: &Text) -> Result<Entry, OutOfMemory>
    ensures { IfOk result (λ entry. entry ≡ import_entry 0 (place, full.now)) }
{
    let name = Text::from_str(alloc, simple_name(full.as_str()))?;
    Ok(Entry {
        owner: 0,
        arity: 0,
        name,
        place,
    })
}
