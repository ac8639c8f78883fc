//! Members, grouped by their classes.
ghost use Rattle.std.specs.Prelude.{◌≡◌, ◌++◌, ◌∷◌, [], IfOk, OnOk, None, if◌then◌else◌};
ghost use Rattle.std.specs.Map.{lookup};
ghost use Rattle.std.specs.Option.{option_to_list};
ghost use Rattle.mol_base.specs.declared.ident.Id.{Id as Identity};
ghost use Rattle.mol_scope_classes.specs.class_members.Members.{AreMembers, in_class, listed_at};
ghost use Rattle.mol_values_types.specs.Order.{id_eq};

use crate::class_members::class_member::ClassMember;
use crate::class_members::owned::{OwnedMember, owned_member};
use indexmap::IndexMap;
use mol_base::{Id, List, OutOfMemory};
use mol_table::Table;
use mol_values_types::Known;
use std::alloc::Global;

/// The members that live, at their classes.
pub(crate) fn grouped(
    alloc: Global,
    table: &Table,
) -> Result<IndexMap<Id, List<ClassMember>>, OutOfMemory>
    ensures { IfOk result (λ groups. AreMembers table.now groups.entries) }
{
    let mut groups = IndexMap::new(alloc);
    for id in table.ids() {
        add_owned(alloc, &mut groups, owned_member(table, id))?;
    }
    Ok(groups)
}

/// The members at a class.
pub(crate) fn listed<'a>(
    groups: &'a IndexMap<Id, List<ClassMember>>,
    class: &Id,
) -> &'a [ClassMember]
    ensures { result.now ≡ listed_at groups.now.entries class.now }
{
    match groups.get(class) {
        Some(members) => members.items(),
        None => &[],
    }
}

/// Adds a member at its class, if there is one.
fn add_owned(
    alloc: Global,
    groups: &mut IndexMap<Id, List<ClassMember>>,
    owned: Option<OwnedMember>,
) -> Result<(), OutOfMemory>
    ensures { OnOk result ((class : Identity) → listed_at groups.new.entries class
        ≡ listed_at groups.old.entries class ++ option_to_list (in_class class owned)) }
{
    match owned {
        Some(owned) => add(alloc, groups, owned.class, owned.id, owned.known),
        None => Ok(()),
    }
}

/// Adds a member at a class.
fn add(
    alloc: Global,
    groups: &mut IndexMap<Id, List<ClassMember>>,
    class: Id,
    id: Id,
    known: Known,
) -> Result<(), OutOfMemory>
    ensures { let longer = listed_at groups.old.entries class ++ record { id = id; known = known } ∷ [] in
        OnOk result ((asked : Identity) → listed_at groups.new.entries asked
        ≡ (if id_eq class asked then longer else listed_at groups.old.entries asked)) }
{
    let mut members = taken(alloc, groups, &class);
    members.add(ClassMember { id, known })?;
    groups.insert(class, members)?;
    Ok(())
}

/// Takes out the members at a class.
fn taken(
    alloc: Global,
    groups: &mut IndexMap<Id, List<ClassMember>>,
    class: &Id,
) -> List<ClassMember>
    ensures taken { result ≡ listed_at groups.old.entries class.now }
    ensures others { (asked : Identity) → lookup (id_eq asked) groups.new.entries
        ≡ (if id_eq class.now asked then None else lookup (id_eq asked) groups.old.entries) }
{
    match groups.swap_remove(class) {
        Some(members) => members,
        None => List::new(alloc),
    }
}
