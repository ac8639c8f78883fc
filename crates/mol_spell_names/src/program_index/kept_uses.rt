//! What the names of files use.
ghost use Rattle.std.specs.Prelude.{◌≡◌, IfOk, OnOk};
ghost use Rattle.mol_spell_names.specs.program_index.KeptUses.{AreUses, KeepsUses, PutsUses};

use crate::uses::file_uses;
use indexmap::IndexMap;
use mol_base::{Id, OutOfMemory};
use mol_scope::MemberIndex;
use mol_scope_classes::{ClassMembers, is_living_class};
use mol_spell_uses::Uses;
use std::alloc::Global;

/// What the names in the file of each class that lives use.
pub(crate) fn kept_uses(
    alloc: Global,
    names: &MemberIndex<'_>,
    members: &ClassMembers<'_>,
) -> Result<IndexMap<Id, Uses>, OutOfMemory>
    requires { members.now ≡ names.now }
    ensures { IfOk result (λ kept. AreUses names.now kept.entries) }
{
    let mut kept = IndexMap::new(alloc);
    let ids = names.table().ids();
    for class in ids {
        keep_living(alloc, &mut kept, names, members, class)?;
    }
    Ok(kept)
}

/// Keeps what the names in the file of a class use, where the class lives.
fn keep_living(
    alloc: Global,
    kept: &mut IndexMap<Id, Uses>,
    names: &MemberIndex<'_>,
    members: &ClassMembers<'_>,
    class: &Id,
) -> Result<(), OutOfMemory>
    requires { members.now ≡ names.now }
    ensures { OnOk result (KeepsUses names.now class.now kept.old.entries kept.new.entries) }
{
    if is_living_class(names.table(), class) {
        keep_uses(alloc, kept, names, members, class)
    } else {
        Ok(())
    }
}

/// Keeps what the names in the file of a class use.
fn keep_uses(
    alloc: Global,
    kept: &mut IndexMap<Id, Uses>,
    names: &MemberIndex<'_>,
    members: &ClassMembers<'_>,
    class: &Id,
) -> Result<(), OutOfMemory>
    requires { members.now ≡ names.now }
    ensures { OnOk result (PutsUses names.now class.now kept.old.entries kept.new.entries) }
{
    let uses = file_uses(alloc, names, members, class)?;
    kept.insert(*class, uses)?;
    Ok(())
}
