//! Fields and methods by their simple names, after `this`, or after the name of their class (JLS 6.5.6, 15.11, 15.12).
ghost use Rattle.std.specs.Prelude.{◌≡◌, IfOk, if◌then◌else◌};
ghost use Rattle.mol_spell_rules.specs.SpelledExpressions.{by_name, field_tree, on_class, on_owner, on_this, own_form, static_form};
ghost use Rattle.mol_spell_expr.specs.Calls.{field_node, receiver};

use crate::expr_writer::ExprWriter;
use crate::importable::Importable;
use crate::names::Names;
use crate::trees::{dot, made, named};
use jav_tree::{Expr, ExprNode};
use mol_base::{Boxed, Id, OutOfMemory};
use std::alloc::Global;

impl<N: Names> ExprWriter<'_, N> {
    /// A field of `this`.
    pub(crate) fn own_field(&self, field: &Id) -> Result<Expr, OutOfMemory>
        ensures { let writer = N.writer self.now.names.now in
            let locals = N.locals self.now.names.now in
            IfOk result (λ tree. tree ≡ field_tree writer locals (own_form writer locals field.now) field.now) }
    {
        let on = self.own_receiver(self.names.reads_field(field))?;
        field_after(self.alloc, on, self.names.name_of(field))
    }

    /// A static field.
    pub(crate) fn static_field(&self, field: &Id) -> Result<Expr, OutOfMemory>
        ensures { let writer = N.writer self.now.names.now in
            let locals = N.locals self.now.names.now in
            IfOk result (λ tree. tree ≡ field_tree writer locals (static_form writer locals field.now) field.now) }
    {
        let owner = self.names.owner_of(field);
        let on = self.static_receiver(self.names.reads_field(field), owner)?;
        field_after(self.alloc, on, self.names.name_of(field))
    }

    /// What stands before a member of `this`: nothing, where its simple name reads as it.
    pub(crate) fn own_receiver(&self, reads: bool) -> Result<Option<Boxed<Expr>>, OutOfMemory>
        ensures { IfOk result (λ on. on ≡ receiver (N.writer self.now.names.now) (N.locals self.now.names.now)
            (if reads then by_name else on_this)) }
    {
        if reads {
            return Ok(None);
        }
        let on = Boxed::new(self.alloc, made(ExprNode::This))?;
        Ok(Some(on))
    }

    /// What stands before a static member: nothing, where its simple name reads as it or there is no class, else the name of the class.
    pub(crate) fn static_receiver(
        &self,
        reads: bool,
        class: Option<Id>,
    ) -> Result<Option<Boxed<Expr>>, OutOfMemory>
        ensures { IfOk result (λ on. on ≡ receiver (N.writer self.now.names.now) (N.locals self.now.names.now)
            (if reads then by_name else on_owner class)) }
    {
        if reads {
            return Ok(None);
        }
        match class {
            Some(class) => self.class_before(&class),
            None => Ok(None),
        }
    }

    /// The name of a class, before a dot.
    fn class_before(&self, class: &Id) -> Result<Option<Boxed<Expr>>, OutOfMemory>
        ensures { IfOk result (λ on. on ≡ receiver (N.writer self.now.names.now) (N.locals self.now.names.now)
            (on_class class.now)) }
    {
        let names = self.class_tree(Importable::Class(class))?;
        let on = Boxed::new(self.alloc, names)?;
        Ok(Some(on))
    }
}

/// A field, after an expression and a dot if there is one.
fn field_after(alloc: Global, on: Option<Boxed<Expr>>, name: &str) -> Result<Expr, OutOfMemory>
    ensures { IfOk result (λ tree. tree ≡ field_node on name.now) }
{
    match on {
        Some(on) => dot(alloc, on, name),
        None => named(alloc, name),
    }
}
