//! A table with the indexes of its classes, members and files.
ghost use Rattle.std.specs.Prelude.{◌≡◌, IfOk, option_copied};
ghost use Rattle.mol_spell_names.specs.program_index.KeptUses.{living_uses};

use crate::program_index::kept_uses::kept_uses;
use indexmap::IndexMap;
use mol_base::{Id, OutOfMemory};
use mol_scope::MemberIndex;
use mol_scope_classes::ClassMembers;
use mol_spell_uses::Uses;
use mol_table::Table;
use std::alloc::Global;
use std::marker::Model;

/// A table with its classes and members by their names, the members of each class, and what the names in each file use. Contracts see the
/// program of the table.
#[derive(Drop)]
pub struct ProgramIndex<'a> {
    names: MemberIndex<'a>,
    members: ClassMembers<'a>,
    /// At each class that lives, what the names in its file use.
    uses: IndexMap<Id, Uses>,
}

impl<'a> Model for ProgramIndex<'a> {
    ghost use Rattle.std.specs.Prelude.{◌≡◌};
    ghost use Rattle.mol_base.specs.contracts.ident.Id as id;
    ghost use Rattle.mol_spell_names.specs.program_index.KeptUses.{AreUses};
    ghost use Rattle.mol_table_rules.specs.Program.{program_code};
    ghost use Rattle.mol_table_rules.specs.Program.{Program};
    ghost use Rattle.mol_values_types.specs.contracts.cell.Cell as cell;
    ghost use Rattle.mol_values_types.specs.contracts.known.Known as what;
    ghost use Rattle.mol_values_types.specs.contracts.value.Value as value;

    ghost Value = { Program };

    ghost coded = { program_code cell.the_row.coded value.the_row.coded id.the_row.coded what.the_row.coded };

    ghost view = { λ index. index.names };

    ghost invariant = { λ index. (index.members ≡ index.names) × AreUses index.names index.uses.entries };
}

impl<'a> ProgramIndex<'a> {
    /// The indexes of a table. Files are written of tidied tables, so this should be one. The time is near-linear in the number of known
    /// identities, the length of their names, which are sorted, and the size of the values that are printed, but for what names cost. `Err`
    /// is want of memory.
    pub fn new(alloc: Global, table: &'a Table) -> Result<ProgramIndex<'a>, OutOfMemory>
        ensures { IfOk result (λ index. index ≡ table.now) }
    {
        let names = MemberIndex::new(alloc, table)?;
        let members = ClassMembers::new(alloc, table)?;
        let uses = kept_uses(alloc, &names, &members)?;
        Ok(ProgramIndex {
            names,
            members,
            uses,
        })
    }

    /// The table. It takes no memory.
    pub fn table(&self) -> &'a Table
        ensures { result.now ≡ self.now }
    {
        self.names.table()
    }

    /// The classes and members by their names. It takes no memory.
    pub fn names(&self) -> &MemberIndex<'a>
        ensures { result.now ≡ self.now }
    {
        &self.names
    }

    /// The members of each class. It takes no memory.
    pub fn members(&self) -> &ClassMembers<'a>
        ensures { result.now ≡ self.now }
    {
        &self.members
    }

    /// What the names in the source file of a class use where they are printed, in that order, beside members and variables; `None` of a
    /// class that does not live. It takes no memory, and one look-up.
    pub fn uses_of(&self, class: &Id) -> Option<&Uses>
        ensures { option_copied result ≡ living_uses self.now class.now }
    {
        self.uses.get(class)
    }
}
