//! A table as the rules on names look at it.
ghost use Rattle.std.specs.Prelude.{◌≡◌, IfOk};
ghost use Rattle.mol_table_rules.specs.Ancestors.{is_on_way};

use crate::declaring::members::Members;
use mol_base::{Id, OutOfMemory};
use mol_scope_classes::{ClassIndex, Hierarchy, Paths};
use mol_table::Table;
use std::alloc::Global;
use std::marker::Model;

/// The classes and members of a table, by their names. Contracts see the program of the table.
#[derive(Drop)]
pub struct MemberIndex<'a> {
    pub(crate) classes: ClassIndex<'a>,
    pub(crate) members: Members<'a>,
    pub(crate) hierarchy: Hierarchy<'a>,
    pub(crate) paths: Paths,
}

impl<'a> Model for MemberIndex<'a> {
    ghost use Rattle.std.specs.Prelude.{◌≡◌};
    ghost use Rattle.mol_base.specs.contracts.ident.Id as id;
    ghost use Rattle.mol_scope_members.specs.declaring.Indexed.{AreIndexed, AreOwned};
    ghost use Rattle.mol_scope_classes.specs.hierarchy.Paths.{ArePaths};
    ghost use Rattle.mol_table_rules.specs.Program.{program_code};
    ghost use Rattle.mol_table_rules.specs.Program.{Program};
    ghost use Rattle.mol_values_types.specs.contracts.cell.Cell as cell;
    ghost use Rattle.mol_values_types.specs.contracts.known.Known as what;
    ghost use Rattle.mol_values_types.specs.contracts.value.Value as value;

    ghost Value = { Program };

    ghost coded = { program_code cell.the_row.coded value.the_row.coded id.the_row.coded what.the_row.coded };

    ghost view = { λ index. index.classes };

    ghost invariant = { λ index. AreIndexed index.members index.classes × (index.hierarchy ≡ index.classes)
        × AreOwned index.members index.paths.positions.entries index.classes × ArePaths index.classes index.paths.positions.entries };
}

impl<'a> MemberIndex<'a> {
    /// The classes and members of a table. The time is near-linear in the number of known identities and the length of their names, which
    /// are sorted. `Err` is want of memory.
    pub fn new(alloc: Global, table: &'a Table) -> Result<MemberIndex<'a>, OutOfMemory>
        ensures { IfOk result (λ index. index ≡ table.now) }
    {
        let classes = ClassIndex::new(alloc, table)?;
        let hierarchy = Hierarchy::new(alloc, table)?;
        let paths = hierarchy.paths(alloc)?;
        let members = Members::of(alloc, table, &paths)?;
        Ok(MemberIndex {
            classes,
            members,
            hierarchy,
            paths,
        })
    }

    /// The table. It takes no memory.
    pub fn table(&self) -> &'a Table
        ensures { result.now ≡ self.now }
    {
        self.classes.table()
    }

    /// Whether the second class is the first one, or an ancestor of it: one of the superclasses that are met going up while each lives
    /// (JLS 8.1.4). It takes no memory, and the time is logarithmic in the number of classes.
    pub fn is_on_way(&self, class: &Id, above: &Id) -> bool
        ensures { result ≡ is_on_way self.now class.now above.now }
    {
        self.hierarchy.is_on_way(class, above)
    }

    /// The classes of the table. It takes no memory.
    pub fn classes(&self) -> &ClassIndex<'a>
        ensures { result.now ≡ self.now }
    {
        &self.classes
    }
}
