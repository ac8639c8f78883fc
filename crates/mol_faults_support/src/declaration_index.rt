//! The declarations of a program, by what they are found by.
ghost use Rattle.std.specs.Prelude.{◌≡◌, IfOk};
ghost use Rattle.mol_faults_support.specs.Declarations.{ConstructsAny, DeclaresAny};

use crate::link::Link;
use crate::links::{by_class, by_method, linked};
use mol_base::{Id, OutOfMemory};
use mol_table::Table;
use std::alloc::Global;
use std::marker::Model;

/// A table with its declarations, whether or not they live: by their methods, and those of constructors by their classes. Contracts see the
/// program of the table.
#[derive(Drop)]
pub struct DeclarationIndex<'a> {
    table: &'a Table,
    by_method: Vec<Link>,
    by_class: Vec<Link>,
}

impl<'a> Model for DeclarationIndex<'a> {
    ghost use Rattle.mol_base.specs.contracts.ident.Id as id;
    ghost use Rattle.mol_faults_support.specs.Links.{AreIndexed};
    ghost use Rattle.mol_table_rules.specs.Program.{program_code};
    ghost use Rattle.mol_table_rules.specs.Program.{Program};
    ghost use Rattle.mol_values_types.specs.contracts.cell.Cell as cell;
    ghost use Rattle.mol_values_types.specs.contracts.known.Known as what;
    ghost use Rattle.mol_values_types.specs.contracts.value.Value as value;

    ghost Value = { Program };

    ghost coded = { program_code cell.the_row.coded value.the_row.coded id.the_row.coded what.the_row.coded };

    ghost view = { λ index. index.table.now };

    ghost invariant = { λ index. AreIndexed index.table.now index.by_method.items index.by_class.items };
}

impl<'a> DeclarationIndex<'a> {
    /// The index of a table. The time is that of some look-ups for each known identity, and of sorting the declarations. `Err` is want of
    /// memory.
    pub fn new(alloc: Global, table: &'a Table) -> Result<DeclarationIndex<'a>, OutOfMemory>
        ensures { IfOk result (λ index. index ≡ table.now) }
    {
        let by_method = by_method(alloc, table)?;
        let by_class = by_class(alloc, table)?;
        Ok(DeclarationIndex {
            table,
            by_method,
            by_class,
        })
    }

    /// The table itself.
    pub fn table(&self) -> &'a Table
        ensures { result.now ≡ self.now }
    {
        self.table
    }

    /// The known declarations of these methods, any number of times. The time is that of a search for each method, beside what is found.
    pub(crate) fn declarations_of(
        &self,
        alloc: Global,
        methods: &[Id],
    ) -> Result<Vec<Id>, OutOfMemory>
        ensures { IfOk result (λ found. DeclaresAny self.now methods.now found.items) }
    {
        linked(alloc, self.by_method.as_slice(), methods)
    }

    /// The known declarations of constructors of these classes, any number of times. The time is that of a search for each class, beside what
    /// is found.
    pub(crate) fn constructors_of(
        &self,
        alloc: Global,
        classes: &[Id],
    ) -> Result<Vec<Id>, OutOfMemory>
        ensures { IfOk result (λ found. ConstructsAny self.now classes.now found.items) }
    {
        linked(alloc, self.by_class.as_slice(), classes)
    }
}
