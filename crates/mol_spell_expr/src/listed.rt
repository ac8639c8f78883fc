//! Expressions over any number of others: calls, creations and arrays (JLS 10.6, 15.9, 15.10.1, 15.12).
ghost use Rattle.std.specs.Prelude.{◌≡◌, IfOk, length, map};
ghost use Rattle.jav_tree.specs.declared.expr.ExprNode.TheVariants as node;
ghost use Rattle.jav_tree.specs.declared.types.TypeName.TheVariants as types;
ghost use Rattle.mol_spell_rules.specs.SpelledExpressions.{constructor_text, type_here};
ghost use Rattle.mol_spell_rules.specs.SpelledExpressions.{made};
ghost use Rattle.mol_spell_expr.specs.Parts.{argument_tree, over_list, tree_of};

use crate::expr_writer::ExprWriter;
use crate::importable::Importable;
use crate::names::Names;
use crate::trees::{call, created, made, super_call};
use crate::type_place::TypePlace;
use jav_tree::{Expr, ExprNode};
use mol_base::{Id, List, OutOfMemory, Text};
use mol_values_types::{Argument, IExpr, IType};
use std::alloc::Global;

/// What stands over any number of expressions.
#[derive(Clone, Copy)]
pub(crate) enum Listed<'a> {
    /// A call of a method of `this`.
    Own(&'a Id),
    /// A call of a static method.
    Static(&'a Id),
    /// A call by a name, without anything before it.
    Outside(&'a str),
    /// A call by a name after `super.`.
    Super(&'a str),
    /// A creation by a constructor.
    New(&'a Id),
    /// A creation of an object of a type outside.
    NewOutside(&'a IType),
    /// A new array with sizes, and so many pairs of empty brackets after these.
    NewArray(&'a IType, u32),
    /// A new array of a type with its items.
    ArrayLit(&'a IType),
    /// Items in braces.
    Braces,
}

impl<N: Names> ExprWriter<'_, N> {
    /// An expression over others.
    #[cycle(write_expr)]
    pub(crate) fn listed(&self, kind: Listed<'_>, items: &[IExpr]) -> Result<Expr, OutOfMemory>
        ensures { let writer = N.writer self.now.names.now in
            let locals = N.locals self.now.names.now in
            IfOk result (λ tree. tree ≡ over_list writer locals kind.entry (map (tree_of writer locals) items.now)) }
    {
        let items = self.exprs(items)?;
        self.over_list(kind, items)
    }

    /// An expression over arguments.
    #[cycle(write_expr)]
    pub(crate) fn called(&self, kind: Listed<'_>, args: &[Argument]) -> Result<Expr, OutOfMemory>
        ensures { let writer = N.writer self.now.names.now in
            let locals = N.locals self.now.names.now in
            IfOk result (λ tree. tree ≡ over_list writer locals kind.entry (map (argument_tree writer locals) args.now)) }
    {
        let args = self.arguments(args)?;
        self.over_list(kind, args)
    }

    /// What stands over others that are written.
    fn over_list(&self, kind: Listed<'_>, items: List<Expr>) -> Result<Expr, OutOfMemory>
        ensures { IfOk result (λ tree. tree
            ≡ over_list (N.writer self.now.names.now) (N.locals self.now.names.now) kind.entry items) }
    {
        match kind {
            Listed::Own(method) => self.own_call(method, items),
            Listed::Static(method) => self.static_call(method, items),
            Listed::Outside(name) => call(self.alloc, None, name, items),
            Listed::Super(name) => super_call(self.alloc, name, items),
            Listed::New(constructor) => self.creation(constructor, items),
            Listed::NewOutside(ty) => self.creation_of(ty, items),
            Listed::NewArray(ty, pairs) => self.new_array(ty, items, pairs),
            Listed::ArrayLit(ty) => self.array_of(ty, items),
            Listed::Braces => Ok(made(ExprNode::Braces(items))),
        }
    }

    /// A creation by a constructor.
    fn creation(&self, constructor: &Id, args: List<Expr>) -> Result<Expr, OutOfMemory>
        ensures { IfOk result (λ tree. tree ≡ made (node.New (types.Named
            (constructor_text (N.writer self.now.names.now) (N.locals self.now.names.now) constructor.now)) args)) }
    {
        let text = self.constructor_text(constructor)?;
        Ok(created(text, args))
    }

    /// What stands after `new` in a creation by a constructor: the class that declares it, or `$` where none does.
    fn constructor_text(&self, constructor: &Id) -> Result<Text, OutOfMemory>
        ensures { IfOk result (λ text. text
            ≡ constructor_text (N.writer self.now.names.now) (N.locals self.now.names.now) constructor.now) }
    {
        match self.names.declaring_class(constructor) {
            Some(class) => self.class_text(TypePlace::Expression, Importable::Class(&class)),
            None => Text::from_str(self.alloc, "$"),
        }
    }

    /// A creation of an object of a type outside.
    fn creation_of(&self, ty: &IType, args: List<Expr>) -> Result<Expr, OutOfMemory>
        ensures { IfOk result (λ tree. tree ≡ made (node.New
            (type_here (N.writer self.now.names.now) (N.locals self.now.names.now) ty.now).tree args)) }
    {
        let ty = self.type_name(TypePlace::Expression, ty)?;
        Ok(made(ExprNode::New(ty, args)))
    }

    /// A new array with sizes.
    fn new_array(&self, ty: &IType, sizes: List<Expr>, pairs: u32) -> Result<Expr, OutOfMemory>
        ensures { IfOk result (λ tree. tree ≡ made (node.NewArray
            (type_here (N.writer self.now.names.now) (N.locals self.now.names.now) ty.now).tree sizes pairs)) }
    {
        let ty = self.type_name(TypePlace::Expression, ty)?;
        Ok(made(ExprNode::NewArray(ty, sizes, pairs)))
    }

    /// A new array of a type with its items.
    fn array_of(&self, ty: &IType, items: List<Expr>) -> Result<Expr, OutOfMemory>
        ensures { IfOk result (λ tree. tree ≡ made (node.ArrayLit
            (type_here (N.writer self.now.names.now) (N.locals self.now.names.now) ty.now).tree items)) }
    {
        let ty = self.type_name(TypePlace::Expression, ty)?;
        Ok(made(ExprNode::ArrayLit(ty, items)))
    }
}
