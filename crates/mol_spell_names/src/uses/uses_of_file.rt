//! Uses of a file.
ghost use Rattle.std.specs.Prelude.{◌≡◌, IfOk};
ghost use Rattle.mol_spell_rules.specs.SimpleNames.{uses_in};

use crate::body_names::AllSimple;
use crate::uses::file_cells::FileCells;
use mol_base::{Id, OutOfMemory};
use mol_scope::MemberIndex;
use mol_scope_classes::ClassMembers;
use mol_spell_uses::Uses;
use mol_values_types::Slot;
use std::alloc::Global;

/// What the names in the source file of a class use where they are printed, in that order, beside members and variables. Files are written of
/// tidied tables, so this should be one; the index and the members are of it both. The time is linear in the size of the values that are
/// printed, but for what names cost. `Err` is want of memory.
pub fn file_uses(
    alloc: Global,
    index: &MemberIndex<'_>,
    members: &ClassMembers<'_>,
    class: &Id,
) -> Result<Uses, OutOfMemory>
    requires { members.now ≡ index.now }
    ensures { IfOk result (λ uses. uses ≡ uses_in index.now class.now) }
{
    let file = AllSimple;
    uses_by(alloc, index, &file, members, class)
}

/// The same by a file in which everything counts as simple, lent for as long as the places in it need it.
fn uses_by<'a>(
    alloc: Global,
    index: &'a MemberIndex<'_>,
    file: &'a AllSimple,
    members: &ClassMembers<'_>,
    class: &Id,
) -> Result<Uses, OutOfMemory>
    requires { members.now ≡ index.now }
    ensures { IfOk result (λ uses. uses ≡ uses_in index.now class.now) }
{
    let mut uses = Uses::new(alloc);
    let cells = FileCells {
        alloc,
        index,
        file,
        class: *class,
    };
    cells.add_cell(&mut uses, class, Slot::Super)?;
    cells.add_members(&mut uses, members.members_of(class))?;
    Ok(uses)
}
