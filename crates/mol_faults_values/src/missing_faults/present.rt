//! Whether what is mentioned is there.
ghost use Rattle.std.specs.FinMap as map;
ghost use Rattle.std.specs.List.{list_any};
ghost use Rattle.std.specs.Prelude.{◌≡◌};
ghost use Rattle.mol_faults_mentions.specs.mentions.Kept.{kept_role};
ghost use Rattle.mol_faults_values.specs.missing_faults.Gone.{living_entity};
ghost use Rattle.mol_table_rules.specs.Faults.{is_present, is_there, method_of};
ghost use Rattle.mol_values_types.specs.Order.{id_eq};

use mol_base::Id;
use mol_faults_mentions::{Mention, Role};
use mol_scope_classes::params_of;
use mol_table::Table;
use mol_values_types::{Known, Param};

/// What an entity that lives is known as; `None` of what is no entity, and of one that does not live. It takes no memory.
pub(crate) fn living_entity(table: &Table, id: &Id) -> Option<Known>
    ensures { result ≡ living_entity table.now id.now }
{
    match table.known(*id) {
        Some(Known::Param(_)) => None,
        Some(known) if table.lives(*id) => Some(known),
        _ => None,
    }
}

/// Whether what a cell of an entity mentions is there: a parameter in the present list of its method, of which there are at most 255, and
/// all else where it lives. It takes no memory.
pub(crate) fn is_there(table: &Table, owner: &Id, mention: &Mention) -> bool
    ensures { result ≡ is_there table.now owner.now (kept_role mention.now.role) mention.now.id }
{
    match mention.role {
        Role::Param => is_present(table, owner, &mention.id),
        Role::ListedParam => is_present(table, owner, &mention.id),
        _ => table.lives(mention.id),
    }
}

/// Whether a parameter is in the present list of the method of an entity.
fn is_present(table: &Table, owner: &Id, param: &Id) -> bool
    ensures { result ≡ is_present table.now owner.now param.now }
{
    match method_of(table, owner) {
        Some(method) => is_listed(params_of(table, &method), param),
        None => false,
    }
}

/// The method whose parameters a cell of an entity may name, if there is one.
fn method_of(table: &Table, owner: &Id) -> Option<Id>
    ensures { result ≡ method_of owner.now (map.get table.now.known owner.now) }
{
    match table.known(*owner) {
        Some(Known::Method(_)) => Some(*owner),
        Some(Known::Decl(method)) => Some(method),
        _ => None,
    }
}

/// Whether one of the parameters has this identity.
fn is_listed(params: &[Param], id: &Id) -> bool
    ensures { result ≡ list_any (λ param. id_eq id.now param.id) params.now }
{
    params.iter().any(|param| *id == param.id)
}
