//! Fields and declarations that live, with the classes in which they stand.
ghost use Rattle.std.specs.Prelude.{◌≡◌, None, if◌then◌else◌};
ghost use Rattle.mol_table_rules.specs.Program.{living_at, owner_at};

use mol_base::Id;
use mol_scope_classes::{is_live, owner_of};
use mol_table::Table;

/// A declaration that lives: its method, and the class in which it stands.
#[derive(Clone, Copy)]
pub(crate) struct LivingDeclaration {
    pub method: Id,
    pub owner: Id,
}

/// The class in which a field or a declaration stands, if it lives.
pub(crate) fn living_owner(table: &Table, id: &Id) -> Option<Id>
    ensures { result ≡ (if living_at table.now id.now then owner_at table.now id.now else None) }
{
    if is_live(table, id) {
        owner_of(table, id)
    } else {
        None
    }
}
