//! Files in order.
ghost use Rattle.std.specs.Prelude.{◌≡◌, IfOk, map};
ghost use Rattle.mol_spell_rules.specs.Sets.{as_set};
ghost use Rattle.mol_spell_rules.specs.SpelledUnits.{key_at, living_classes, unit_key_cmp};
ghost use Rattle.mol_spell.specs.keys.Keys.{key_of};

use crate::keys::listing::living_keys;
use crate::keys::unit_key::UnitKey;
use mol_base::OutOfMemory;
use mol_table::Table;
use std::alloc::Global;

/// The keys of the files of a table, one for each class that lives, ascending by path and then by class. The time is near-linear in the
/// number of known identities and the length of the paths. `Err` is want of memory.
pub fn unit_keys(alloc: Global, table: &Table) -> Result<Vec<UnitKey>, OutOfMemory>
    ensures { IfOk result (λ keys. map key_of keys.items
        ≡ as_set unit_key_cmp (map (key_at table.now) (living_classes table.now))) }
{
    let mut keys = living_keys(alloc, table)?;
    keys.sort_by(|first, second| first.compare(second))?;
    Ok(keys)
}
