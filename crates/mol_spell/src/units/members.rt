//! The members of a class (JLS 8.1.6).
ghost use Rattle.std.specs.Prelude.{◌≡◌, ◌++◌, IfOk, OnOk};
ghost use Rattle.std.specs.List.{filter_map};
ghost use Rattle.std.specs.Option.{option_to_list};
ghost use Rattle.mol_scope_classes.specs.class_members.Members.{member_entry};
ghost use Rattle.mol_spell_rules.specs.SpelledUnits.{spelled_member};
ghost use Rattle.mol_spell_rules.specs.UnitCells.{members_of};

use crate::units::unit_writer::UnitWriter;
use jav_tree::Member;
use mol_base::{List, OutOfMemory};
use mol_scope_classes::ClassMember;
use mol_spell_names::FileNames;
use mol_values_types::Known;

impl<F: FileNames> UnitWriter<'_, F> {
    /// The members of the class, in the order of their identities.
    pub(crate) fn members(&self) -> Result<List<Member>, OutOfMemory>
        ensures { let program = self.now.index.now in let class = self.now.class in
            IfOk result (λ trees. trees ≡ filter_map (spelled_member program class) (members_of program class)) }
    {
        let members = self.members.members_of(&self.class);
        let mut trees = List::with_capacity(self.alloc, members.len())?;
        for member in members {
            let tree = self.member(member)?;
            add_member(&mut trees, tree)?;
        }
        Ok(trees)
    }

    /// A field or a declaration as a member.
    fn member(&self, member: &ClassMember) -> Result<Option<Member>, OutOfMemory>
        ensures { IfOk result (λ tree. tree ≡ spelled_member self.now.index.now self.now.class (member_entry member.now)) }
    {
        match member.known {
            Known::Field => self.field(&member.id),
            Known::Decl(method) => self.declaration(&member.id, &method),
            _ => Ok(None),
        }
    }
}

/// Adds a member, if there is one.
fn add_member(trees: &mut List<Member>, tree: Option<Member>) -> Result<(), OutOfMemory>
    ensures { OnOk result (trees.new ≡ trees.old ++ option_to_list tree) }
{
    if let Some(tree) = tree {
        trees.add(tree)?;
    }
    Ok(())
}
