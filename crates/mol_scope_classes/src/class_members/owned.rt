//! Members and their classes.
ghost use Rattle.std.specs.Prelude.{◌≡◌};
ghost use Rattle.std.specs.FinMap as map;
ghost use Rattle.mol_scope_classes.specs.class_members.Members.{living_member, owned_member};

use crate::cells::{is_live, owner_of};
use mol_base::Id;
use mol_table::Table;
use mol_values_types::Known;

/// A field or a declaration, by its class, its identity and what it is known as.
#[derive(Clone, Copy)]
pub(crate) struct OwnedMember {
    pub class: Id,
    pub id: Id,
    pub known: Known,
}

/// The member of an identity with its class, if it is a field or a declaration that lives and has a class.
pub(crate) fn owned_member(table: &Table, id: &Id) -> Option<OwnedMember>
    ensures { result ≡ owned_member table.now id.now (map.get table.now.known id.now) }
{
    match table.known(*id) {
        Some(Known::Field) => living_member(table, id, Known::Field),
        Some(Known::Decl(method)) => living_member(table, id, Known::Decl(method)),
        _ => None,
    }
}

/// What is known so, with its class, if it lives and has one.
fn living_member(table: &Table, id: &Id, known: Known) -> Option<OwnedMember>
    ensures { result ≡ living_member table.now id.now known }
{
    if !is_live(table, id) {
        return None;
    }
    match owner_of(table, id) {
        Some(class) => Some(OwnedMember {
            class,
            id: *id,
            known,
        }),
        None => None,
    }
}
