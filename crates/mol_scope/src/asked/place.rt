//! Where names are read.
ghost use Rattle.std.specs.Prelude.{◌≡◌};
ghost use Rattle.mol_scope.specs.asked.Places.{program_of};
ghost use Rattle.mol_resolve_rules.specs.ProgramViews.{method_at};

use crate::typenames::ClassFile;
use crate::variables::VariablePlace;
use jav_scope::ImportIndex;
use mol_base::Id;
use mol_table::Table;
use mol_values_types::{Known, Param};

/// A place in the file of a class of a table, where names are read. The class need not live.
#[derive(Clone, Copy)]
pub struct NamePlace<'a, 'b> {
    /// The class, and the names of the locals and parameters in scope.
    pub variables: VariablePlace<'a, 'b>,
    /// The numbers of these locals, in the same order.
    pub in_scope: &'b [usize],
    /// These parameters.
    pub params: &'b [Param],
    /// Whether the place is in a constructor.
    pub in_constructor: bool,
    /// The imports of the file.
    pub imports: &'b ImportIndex<'b>,
}

impl<'a, 'b> NamePlace<'a, 'b> {
    /// The table.
    pub(crate) fn table(&self) -> &'a Table
        ensures { result.now ≡ program_of self.now }
    {
        self.variables.members.table()
    }

    /// The file of the class.
    pub(crate) fn file(&self) -> ClassFile<'b>
        ensures classes { result.classes.now ≡ program_of self.now }
        ensures class { result.class ≡ self.now.variables.class }
        ensures imports { result.imports.now ≡ self.now.imports.now }
    {
        ClassFile {
            classes: self.variables.members.classes(),
            class: self.variables.class,
            imports: self.imports,
        }
    }

    /// The method of a declaration; the identity itself where it is none of a declaration.
    pub(crate) fn method_at(&self, id: &Id) -> Id
        ensures { result ≡ method_at (program_of self.now) id.now }
    {
        match self.table().known(*id) {
            Some(Known::Decl(method)) => method,
            _ => *id,
        }
    }
}
