//! A place in a body.
use crate::body_locals::BodyLocals;
use crate::body_places::places::Places;
use mol_base::Id;
use mol_spell_expr::{Importable, Names};

/// A place in a body, with the locals that were declared up to it.
#[derive(Clone, Copy)]
pub struct InBody<'a, 'l, 'p, P> {
    pub places: &'p P,
    pub locals: &'l BodyLocals<'a>,
}

impl<P: Places> Names for InBody<'_, '_, '_, P> {
    ghost use Rattle.mol_spell_places.specs.body_locals.Kept.{locals_of};

    ghost writer = { λ at. P.writer at.places.now };

    ghost locals = { λ at. locals_of at.locals.now };

    fn name_of(&self, id: &Id) -> &str {
        self.places.name_of(id)
    }

    fn package_of(&self, class: &Id) -> &str {
        self.places.package_of(class)
    }

    fn local_name(&self, number: u32) -> &str {
        match self.locals.local(number) {
            Some(local) => local.name.as_str(),
            None => "$",
        }
    }

    fn param_name(&self, id: &Id) -> &str {
        self.places.param_name(id)
    }

    fn owner_of(&self, field: &Id) -> Option<Id> {
        self.places.owner_of(field)
    }

    fn declaring_class(&self, method: &Id) -> Option<Id> {
        self.places.declaring_class(method)
    }

    fn is_simple(&self, what: Importable<'_>) -> bool {
        self.places.is_simple(what)
    }

    fn is_variable(&self, name: &str) -> bool {
        self.places.is_variable(self.locals, name)
    }

    fn reads_field(&self, field: &Id) -> bool {
        self.places.reads_field(self.locals, field)
    }

    fn reads_method(&self, method: &Id, arity: u32) -> bool {
        self.places.reads_method(method, arity)
    }
}
