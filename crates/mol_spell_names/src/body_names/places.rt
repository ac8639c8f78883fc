//! What is asked where bodies of a table are written.
use crate::body_names::body_names::BodyNames;
use crate::body_names::file_names::FileNames;
use crate::body_names::methods::{method_found, method_is};
use crate::body_names::params::present_param;
use crate::body_names::variables::is_field;
use mol_base::Id;
use mol_scope_classes::{name_of, owner_of, package_of};
use mol_spell_expr::Importable;
use mol_spell_places::{BodyLocals, Places};

impl<F: FileNames> Places for BodyNames<'_, F> {
    ghost use Rattle.mol_spell_names.specs.body_names.FilePlaces.{writer_of};

    ghost writer = { λ names. writer_of names.members.now (F.imports names.file.now) (F.simple names.file.now) names.class names.method };

    fn name_of(&self, id: &Id) -> &str {
        name_of(self.members.table(), id)
    }

    fn package_of(&self, class: &Id) -> &str {
        package_of(self.members.table(), class)
    }

    fn param_name(&self, id: &Id) -> &str {
        match present_param(self.members.table(), id) {
            Some(param) => param.name.as_str(),
            None => "$",
        }
    }

    fn owner_of(&self, field: &Id) -> Option<Id> {
        owner_of(self.members.table(), field)
    }

    fn declaring_class(&self, method: &Id) -> Option<Id> {
        self.members.declaring_class(method)
    }

    fn is_simple(&self, what: Importable<'_>) -> bool {
        self.file.is_simple(what)
    }

    fn is_variable(&self, locals: &BodyLocals<'_>, name: &str) -> bool {
        self.variable(locals, name).is_some()
    }

    fn reads_field(&self, locals: &BodyLocals<'_>, field: &Id) -> bool {
        if !self.has_field_above(field) {
            return false;
        }
        let name = name_of(self.members.table(), field);
        is_field(field, self.variable(locals, name))
    }

    fn reads_method(&self, method: &Id, arity: u32) -> bool {
        if !self.has_method_above(method) {
            return false;
        }
        let found = method_found(self.alloc, self.members, &self.class, method, arity);
        method_is(self.members.table(), method, &found)
    }
}
