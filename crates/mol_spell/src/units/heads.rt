//! What stands before members.
ghost use Rattle.std.specs.Prelude.{◌≡◌, IfOk};
ghost use Rattle.mol_spell.specs.units.Headings.{member_head};

use crate::units::cells::{front_of, words_of};
use mol_base::{Id, List, OutOfMemory, Text};
use mol_table::Table;
use mol_values_types::copy_texts;
use std::alloc::Global;

/// The comments before a member, and its modifiers.
#[derive(Drop)]
pub(crate) struct MemberHead {
    pub front: List<Text>,
    pub words: List<Text>,
}

impl MemberHead {
    /// What stands before a member.
    pub(crate) fn of(alloc: Global, table: &Table, id: &Id) -> Result<MemberHead, OutOfMemory>
        ensures { IfOk result (λ head. head ≡ member_head table.now id.now) }
    {
        let front = copy_texts(alloc, front_of(table, id))?;
        let words = copy_texts(alloc, words_of(table, id))?;
        Ok(MemberHead { front, words })
    }
}
