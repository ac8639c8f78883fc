//! Classes by their names.
ghost use Rattle.std.specs.Prelude.{◌≡◌, ◌<◌, ◌^◌, IfOk, length, option_map};
ghost use Rattle.jav_names.specs.index.Spelled.{spelled};
ghost use Rattle.jav_names.specs.LookUps.{class_named};
ghost use Rattle.mol_resolve_rules.specs.ProgramViews.{program_view};

use crate::classes::entries::{full_names, no_owner};
use jav_names::Spelling;
use jav_names::id_index::Index;
use mol_base::{Id, OutOfMemory};
use mol_table::Table;
use std::alloc::Global;
use std::marker::Model;

/// The classes of a table that live, by their full names. Contracts see the program of the table.
#[derive(Drop)]
pub struct ClassIndex<'a> {
    table: &'a Table,
    full_names: Index,
    count: usize,
}

impl<'a> Model for ClassIndex<'a> {
    ghost use Rattle.mol_base.specs.contracts.ident.Id as id;
    ghost use Rattle.mol_scope_classes.specs.classes.ClassEntries.{AreIndexed};
    ghost use Rattle.mol_table_rules.specs.Program.{program_code};
    ghost use Rattle.mol_table_rules.specs.Program.{Program};
    ghost use Rattle.mol_values_types.specs.contracts.cell.Cell as cell;
    ghost use Rattle.mol_values_types.specs.contracts.known.Known as what;
    ghost use Rattle.mol_values_types.specs.contracts.value.Value as value;

    ghost Value = { Program };

    ghost coded = { program_code cell.the_row.coded value.the_row.coded id.the_row.coded what.the_row.coded };

    ghost view = { λ index. index.table.now };

    ghost invariant = { λ index. AreIndexed index.table.now index.full_names index.count };
}

impl<'a> ClassIndex<'a> {
    /// The classes of a table. The time is that of a few look-ups for each known identity, and of sorting the full names.
    /// `Err` is want of memory.
    pub fn new(alloc: Global, table: &'a Table) -> Result<ClassIndex<'a>, OutOfMemory>
        ensures { IfOk result (λ index. index ≡ table.now) }
    {
        let entries = full_names(alloc, table)?;
        let count = entries.len();
        let full_names = Index::new(entries)?;
        Ok(ClassIndex {
            table,
            full_names,
            count,
        })
    }

    /// The table that the classes are of. It takes no memory.
    pub fn table(&self) -> &'a Table
        ensures { result.now ≡ self.now }
    {
        self.table
    }

    /// How many classes live. It takes no memory.
    pub fn count(&self) -> usize
        ensures count { result ≡ length (program_view self.now).classes.items }
        ensures few { result < 2 ^ 63 }
    {
        self.count
    }

    /// The class of a full name (JLS 6.7), of several that of least identity. It takes no memory. The time is logarithmic in the number of
    /// classes.
    pub fn class_named(&self, name: &Spelling<'_>) -> Option<Id>
        ensures { result ≡ option_map (λ class. class.key) (class_named (program_view self.now).classes (spelled name.now)) }
    {
        self.full_names.first(&no_owner(), 0, name)
    }
}
