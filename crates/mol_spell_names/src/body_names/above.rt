//! Whether a member stands where it can be found from the class of a file up: in this class, or in an ancestor. That is asked before the
//! member is looked for, since a look-up that finds nothing goes up to the last superclass.
ghost use Rattle.std.specs.Prelude.{◌≡◌, Some};
ghost use Rattle.std.specs.FinMap as map;
ghost use Rattle.mol_spell_names.specs.body_names.Above.{has_field_above, has_method_above};
ghost use Rattle.mol_table_rules.specs.Faults.{is_above};
ghost use Rattle.mol_table_rules.specs.Rules.{IsProgram};

use crate::body_names::body_names::BodyNames;
use crate::body_names::file_names::FileNames;
use mol_base::Id;
use mol_scope_classes::owner_of;
use mol_table::Table;
use mol_values_types::{Known, MethodKind};

impl<F: FileNames> BodyNames<'_, F> {
    /// Whether a field stands in the class of the file, or in an ancestor of it.
    pub(crate) fn has_field_above(&self, field: &Id) -> bool
        ensures above { result ≡ has_field_above self.now.members.now self.now.class field.now }
        ensures rules { IsProgram self.now.members.now }
    {
        let table = self.members.table();
        rules(table);
        self.is_above(owner_of(table, field))
    }

    /// Whether a static method is declared in the class of the file, or in an ancestor of it. Of another method it is not asked.
    pub(crate) fn has_method_above(&self, method: &Id) -> bool
        ensures above { result ≡ has_method_above self.now.members.now self.now.class method.now
            (map.get self.now.members.now.known method.now) }
        ensures rules { IsProgram self.now.members.now }
    {
        let table = self.members.table();
        rules(table);
        match table.known(*method) {
            Some(Known::Method(MethodKind::Static)) => {
                self.is_above(self.members.declaring_class(method))
            }
            _ => true,
        }
    }

    /// Whether a class is that of the file, or an ancestor of it.
    fn is_above(&self, class: Option<Id>) -> bool
        ensures { result ≡ is_above self.now.members.now (Some self.now.class) class }
    {
        match class {
            Some(class) => self.members.is_on_way(&self.class, &class),
            None => false,
        }
    }
}

/// The rules of programs hold of each table. The call does nothing.
fn rules(table: &Table)
    ensures { IsProgram table.now }
{
    let _ = table.ids();
}
