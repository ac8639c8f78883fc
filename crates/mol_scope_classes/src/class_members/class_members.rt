//! Members by their classes.
ghost use Rattle.std.specs.Prelude.{◌≡◌, IfOk, map};
ghost use Rattle.mol_scope_classes.specs.class_members.Members.{member_entry};
ghost use Rattle.mol_spell_rules.specs.UnitCells.{members_of};

use crate::class_members::class_member::ClassMember;
use crate::class_members::grouping::{grouped, listed};
use indexmap::IndexMap;
use mol_base::{Id, List, OutOfMemory};
use mol_table::Table;
use std::alloc::Global;
use std::marker::Model;

/// The members of each class of a table. Contracts see the program of the table.
#[derive(Drop)]
pub struct ClassMembers<'a> {
    table: &'a Table,
    by_class: IndexMap<Id, List<ClassMember>>,
}

impl<'a> Model for ClassMembers<'a> {
    ghost use Rattle.mol_base.specs.contracts.ident.Id as id;
    ghost use Rattle.mol_scope_classes.specs.class_members.Members.{AreMembers};
    ghost use Rattle.mol_table_rules.specs.Program.{program_code};
    ghost use Rattle.mol_table_rules.specs.Program.{Program};
    ghost use Rattle.mol_values_types.specs.contracts.cell.Cell as cell;
    ghost use Rattle.mol_values_types.specs.contracts.known.Known as what;
    ghost use Rattle.mol_values_types.specs.contracts.value.Value as value;

    ghost Value = { Program };

    ghost coded = { program_code cell.the_row.coded value.the_row.coded id.the_row.coded what.the_row.coded };

    ghost view = { λ members. members.table.now };

    ghost invariant = { λ members. AreMembers members.table.now members.by_class.entries };
}

impl<'a> ClassMembers<'a> {
    /// The members of the classes of a table. The time is that of a few look-ups for each known identity. `Err` is want of memory.
    pub fn new(alloc: Global, table: &'a Table) -> Result<ClassMembers<'a>, OutOfMemory>
        ensures { IfOk result (λ members. members ≡ table.now) }
    {
        let by_class = grouped(alloc, table)?;
        Ok(ClassMembers { table, by_class })
    }

    /// The fields and declarations that live and whose class this is, ascending by identity. It takes no memory, and about the same time
    /// however many there are.
    pub fn members_of(&self, class: &Id) -> &[ClassMember]
        ensures { map member_entry result.now ≡ members_of self.now class.now }
    {
        listed(&self.by_class, class)
    }
}
