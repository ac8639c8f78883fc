//! How classes stand in an index.
ghost use Rattle.std.specs.Prelude.{◌≡◌, ◌++◌, ◌∷◌, IfOk, map, option_map};
ghost use Rattle.jav_names.specs.DottedNames.{dot};
ghost use Rattle.mol_resolve_rules.specs.ProgramReaders.{class_at};
ghost use Rattle.mol_resolve_rules.specs.ProgramViews.{program_view};
ghost use Rattle.mol_scope_classes.specs.classes.ClassEntries.{class_as, class_entry, no_owner};

use crate::cells::{is_living_class, name_of, package_of};
use jav_names::add_entry;
use jav_names::id_index::Entry;
use mol_base::{Id, OutOfMemory, Tag, Text};
use mol_table::Table;
use std::alloc::Global;

/// In place of an owner, which a class does not have: no identity has this number.
pub(crate) fn no_owner() -> Id
    ensures { result ≡ no_owner }
{
    Id {
        tag: Tag::base(),
        num: 0,
    }
}

/// The full names of the classes that live, in the order of their identities.
pub(crate) fn full_names(alloc: Global, table: &Table) -> Result<Vec<Entry>, OutOfMemory>
    ensures { IfOk result (λ entries. entries.items ≡ map class_entry (program_view table.now).classes.items) }
{
    let mut entries = Vec::new(alloc);
    for id in table.ids() {
        let entry = full_name(alloc, table, id)?;
        add_entry(&mut entries, entry)?;
    }
    Ok(entries)
}

/// The full name of a class, if it lives.
fn full_name(alloc: Global, table: &Table, id: &Id) -> Result<Option<Entry>, OutOfMemory>
    ensures { IfOk result (λ entry. entry ≡ option_map class_entry (class_at table.now id.now)) }
{
    if is_living_class(table, id) {
        let entry = class_entry(alloc, table, id)?;
        Ok(Some(entry))
    } else {
        Ok(None)
    }
}

/// How a class stands among the full names.
fn class_entry(alloc: Global, table: &Table, id: &Id) -> Result<Entry, OutOfMemory>
    ensures { IfOk result (λ entry. entry ≡ class_entry (class_as table.now id.now)) }
{
    let name = with_dot(alloc, package_of(table, id), name_of(table, id))?;
    Ok(Entry {
        owner: no_owner(),
        arity: 0,
        name,
        id: *id,
    })
}

/// Two names with a dot between them.
fn with_dot(alloc: Global, front: &str, back: &str) -> Result<Text, OutOfMemory>
    ensures { IfOk result (λ text. text ≡ front.now ++ dot ∷ back.now) }
{
    let mut text = String::from_str(alloc, front)?;
    text.push_str(".")?;
    text.push_str(back)?;
    Ok(Text::from_string(text))
}
