//! The files of the classes that live.
ghost use Rattle.std.specs.Prelude.{◌≡◌, ◌++◌, IfOk, OnOk, None, Some, map, if◌then◌else◌};
ghost use Rattle.std.specs.Option.{option_to_list};
ghost use Rattle.mol_spell_rules.specs.SpelledUnits.{key_at, living_classes};
ghost use Rattle.mol_table_rules.specs.Renumber.{is_living_class};
ghost use Rattle.mol_spell.specs.keys.Keys.{key_of, maybe_key};

use crate::keys::paths::path_text;
use crate::keys::unit_key::UnitKey;
use mol_base::{Id, OutOfMemory};
use mol_scope_classes::{is_living_class, name_of, package_of};
use mol_table::Table;
use std::alloc::Global;

/// The keys of the files, in the order of their classes.
pub(crate) fn living_keys(alloc: Global, table: &Table) -> Result<Vec<UnitKey>, OutOfMemory>
    ensures { IfOk result (λ keys. map key_of keys.items ≡ map (key_at table.now) (living_classes table.now)) }
{
    let mut keys = Vec::new(alloc);
    for id in table.ids() {
        let key = living_key(alloc, table, id)?;
        add_key(&mut keys, key)?;
    }
    Ok(keys)
}

/// The key of the file of a class, if it lives.
fn living_key(alloc: Global, table: &Table, id: &Id) -> Result<Option<UnitKey>, OutOfMemory>
    ensures { IfOk result (λ key. maybe_key key
        ≡ (if is_living_class table.now id.now then Some (key_at table.now id.now) else None)) }
{
    if is_living_class(table, id) {
        let key = key_at(alloc, table, id)?;
        Ok(Some(key))
    } else {
        Ok(None)
    }
}

/// The key of the file of a class.
fn key_at(alloc: Global, table: &Table, class: &Id) -> Result<UnitKey, OutOfMemory>
    ensures { IfOk result (λ key. key_of key ≡ key_at table.now class.now) }
{
    let path = path_text(alloc, package_of(table, class), name_of(table, class))?;
    Ok(UnitKey {
        path,
        class: *class,
    })
}

/// Adds a key, if there is one.
fn add_key(keys: &mut Vec<UnitKey>, key: Option<UnitKey>) -> Result<(), OutOfMemory>
    ensures { OnOk result (keys.new.items ≡ keys.old.items ++ option_to_list key) }
{
    if let Some(key) = key {
        keys.push(key)?;
    }
    Ok(())
}
