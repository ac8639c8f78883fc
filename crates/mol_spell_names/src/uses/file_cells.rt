//! Uses of the cells of a file.
ghost use Rattle.std.specs.Prelude.{◌≡◌, ◌++◌, OnOk, map, option_copied};
ghost use Rattle.mol_spell_uses.specs.body_uses.PartUses.{value_uses};
ghost use Rattle.mol_scope_classes.specs.class_members.Members.{member_entry};
ghost use Rattle.mol_spell_names.specs.uses.CellUses.{member_uses, members_uses};
ghost use Rattle.mol_spell_rules.specs.SimpleNames.{uses_at};
ghost use Rattle.mol_table_rules.specs.Program.{cell};
ghost use Rattle.mol_values_types.specs.declared.known.Known.TheVariants as knowns;

use crate::body_names::{AllSimple, BodyNames};
use mol_base::{Id, OutOfMemory};
use mol_scope::MemberIndex;
use mol_scope_classes::ClassMember;
use mol_spell_places::Places;
use mol_spell_uses::{BodyUses, Uses};
use mol_values_types::{Cell, Known, Slot, Value};
use std::alloc::Global;

/// The source file of a class. `Err` of its calls is want of memory.
#[derive(Clone, Copy)]
pub(crate) struct FileCells<'a> {
    pub alloc: Global,
    pub index: &'a MemberIndex<'a>,
    /// Whether a name is simple does not matter to what it uses.
    pub file: &'a AllSimple,
    pub class: Id,
}

impl FileCells<'_> {
    /// Adds what the names in a cell use.
    pub(crate) fn add_cell(&self, uses: &mut Uses, id: &Id, slot: Slot) -> Result<(), OutOfMemory>
        ensures { OnOk result (uses.new ≡ uses.old ++ uses_at self.now.index.now self.now.class (cell id.now slot)) }
    {
        let value = self.index.table().get(&Cell { id: *id, slot });
        match BodyNames::new(self.alloc, self.index, self.file, self.class, id) {
            Ok(places) => add_value(self.alloc, &places, uses, value),
            Err(OutOfMemory) => Err(OutOfMemory),
        }
    }

    /// Adds what the names of members use, one after the other.
    pub(crate) fn add_members(
        &self,
        uses: &mut Uses,
        members: &[ClassMember],
    ) -> Result<(), OutOfMemory>
        ensures { OnOk result (uses.new ≡ uses.old
            ++ members_uses self.now.index.now self.now.class (map member_entry members.now)) }
    {
        for member in members {
            self.add_member(uses, &member.id, member.known)?;
        }
        Ok(())
    }

    /// Adds what the names of a member use.
    fn add_member(&self, uses: &mut Uses, id: &Id, known: Known) -> Result<(), OutOfMemory>
        ensures { OnOk result (uses.new ≡ uses.old ++ member_uses self.now.index.now self.now.class (id.now, known)) }
    {
        match known {
            Known::Field => self.add_cell(uses, id, Slot::Value),
            Known::Decl(method) => self.add_declaration(uses, id, &method),
            Known::Class => Ok(()),
            Known::Method(_) => Ok(()),
            Known::Param(_) => Ok(()),
        }
    }

    /// Adds what the names of a declaration of a method use.
    fn add_declaration(&self, uses: &mut Uses, id: &Id, method: &Id) -> Result<(), OutOfMemory>
        ensures { OnOk result (uses.new ≡ uses.old
            ++ member_uses self.now.index.now self.now.class (id.now, knowns.Decl method.now)) }
    {
        self.add_cell(uses, method, Slot::Result)?;
        self.add_cell(uses, method, Slot::Params)?;
        self.add_cell(uses, id, Slot::Body)
    }
}

/// Adds what the names in the value of a cell use, where it is written.
fn add_value<P: Places>(
    alloc: Global,
    places: &P,
    uses: &mut Uses,
    value: Option<&Value>,
) -> Result<(), OutOfMemory>
    ensures { OnOk result (uses.new ≡ uses.old ++ value_uses (P.writer places.now) (option_copied value.entry)) }
{
    let gathered = BodyUses { alloc, places };
    gathered.add_value(uses, value)
}
