//! Topmost declarations.
ghost use Rattle.std.specs.Prelude.{◌≡◌, IfOk};
ghost use Rattle.mol_table_rules.specs.Renumber.{topmost};

use crate::topmost::highest::highest;
use crate::topmost::unordered::unordered;
use indexmap::{IndexMap, IndexSet};
use mol_base::{Id, OutOfMemory};
use mol_scope_classes::Hierarchy;
use mol_table::Table;
use std::alloc::Global;
use std::marker::Model;

/// The topmost declaration of each method of a table. Contracts see the program of the table.
#[derive(Drop)]
pub struct Topmost<'a> {
    table: &'a Table,
    highest: IndexMap<Id, Id>,
    /// The methods with a declaration that does not stand below the highest.
    unordered: IndexSet<Id>,
}

impl<'a> Model for Topmost<'a> {
    ghost use Rattle.mol_base.specs.contracts.ident.Id as id;
    ghost use Rattle.mol_table_rules.specs.Program.{program_code};
    ghost use Rattle.mol_table_rules.specs.Program.{Program};
    ghost use Rattle.mol_scope_members.specs.topmost.Highest.{AreTopmost};
    ghost use Rattle.mol_values_types.specs.contracts.cell.Cell as cell;
    ghost use Rattle.mol_values_types.specs.contracts.known.Known as what;
    ghost use Rattle.mol_values_types.specs.contracts.value.Value as value;

    ghost Value = { Program };

    ghost coded = { program_code cell.the_row.coded value.the_row.coded id.the_row.coded what.the_row.coded };

    ghost view = { λ tops. tops.table.now };

    ghost invariant = { λ tops. AreTopmost tops.table.now tops.highest.entries tops.unordered.keys };
}

impl<'a> Topmost<'a> {
    /// The topmost declarations of a table. The time is that of some look-ups for each known identity. `Err` is want of memory.
    pub fn new(alloc: Global, table: &'a Table) -> Result<Topmost<'a>, OutOfMemory>
        ensures { IfOk result (λ tops. tops ≡ table.now) }
    {
        let hierarchy = Hierarchy::new(alloc, table)?;
        let ids = table.ids();
        let highest = highest(alloc, table, &hierarchy, ids)?;
        let unordered = unordered(alloc, table, &hierarchy, &highest, ids)?;
        Ok(Topmost {
            table,
            highest,
            unordered,
        })
    }

    /// The living declaration of a method whose class is, for each of its living declarations, the class of that or an ancestor of it
    /// (JLS 8.1.4); the least identity where there are several. `None` where there is none, and where the identity is none of a method.
    /// It takes no memory and two look-ups.
    pub fn decl(&self, method: &Id) -> Option<Id>
        ensures { result ≡ topmost self.now method.now }
    {
        if self.unordered.contains(method) {
            return None;
        }
        self.highest.get(method).copied()
    }
}
