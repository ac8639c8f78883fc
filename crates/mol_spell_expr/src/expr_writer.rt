//! Expressions, each by what it is.
ghost use Rattle.std.specs.Prelude.{◌≡◌, IfOk, map};
ghost use Rattle.mol_spell_rules.specs.SpelledExpressions.{spelled_expr};
ghost use Rattle.mol_spell_expr.specs.Parts.{argument_tree, tree_of};

use crate::importable::Importable;
use crate::listed::Listed;
use crate::names::Names;
use crate::operands::Unary;
use crate::operators::Binary;
use crate::trees::{literal, made, named};
use jav_tree::{Expr, ExprNode};
use mol_base::{Boxed, List, OutOfMemory};
use mol_values_types::{Argument, IExpr};
use std::alloc::Global;

/// Writes expressions and types of a program as trees of a source file, at the place that `names` knows. As they come from no source,
/// each `at` in these trees is 0. `Err` of its calls is want of memory.
#[derive(Clone, Copy)]
pub struct ExprWriter<'a, N> {
    pub alloc: Global,
    pub names: &'a N,
}

impl<N: Names> ExprWriter<'_, N> {
    /// An expression as it is written, with each `at` 0. The time is linear in its size, but for what names cost.
    #[cycle(write_expr)]
    pub fn expr(&self, e: &IExpr) -> Result<Expr, OutOfMemory>
        ensures { IfOk result (λ tree. tree
            ≡ (spelled_expr (N.writer self.now.names.now) (N.locals self.now.names.now) e.now).tree) }
    {
        match e {
            IExpr::Lit(text) => literal(self.alloc, text),
            IExpr::This => Ok(made(ExprNode::This)),
            IExpr::Local(number) => named(self.alloc, self.names.local_name(*number)),
            IExpr::Param(id) => named(self.alloc, self.names.param_name(id)),
            IExpr::Own(field) => self.own_field(field),
            IExpr::StaticField(field) => self.static_field(field),
            IExpr::Field(field, e) => self.field_on(field, e.get()),
            IExpr::Call(method, args) => self.called(Listed::Own(method), args.items()),
            IExpr::StaticCall(method, args) => self.called(Listed::Static(method), args.items()),
            IExpr::CallOn(method, e, args) => self.method_on(method, e.get(), args.items()),
            IExpr::SuperCall(method, args) => {
                self.called(Listed::Super(self.names.name_of(method)), args.items())
            },
            IExpr::New(constructor, args) => self.called(Listed::New(constructor), args.items()),
            IExpr::NewDefault(class) => self.default_creation(class),
            IExpr::Cond(test, a, b) => self.choice(test.get(), a.get(), b.get()),
            IExpr::OutsideName(name) => named(self.alloc, name.as_str()),
            IExpr::OutsideClass(full) => self.class_tree(Importable::Import(full)),
            IExpr::OutsideField(name, e) => self.unary(Unary::Dot(name.as_str()), e.get()),
            IExpr::OutsideCall(name, args) => {
                self.listed(Listed::Outside(name.as_str()), args.items())
            },
            IExpr::OutsideCallOn(name, e, args) => {
                self.outside_on(name.as_str(), e.get(), args.items())
            },
            IExpr::OutsideSuperCall(name, args) => {
                self.listed(Listed::Super(name.as_str()), args.items())
            },
            IExpr::NewOutside(ty, args) => self.listed(Listed::NewOutside(ty), args.items()),
            IExpr::NewArray(ty, sizes, pairs) => {
                self.listed(Listed::NewArray(ty, *pairs), sizes.items())
            },
            IExpr::ArrayLit(ty, items) => self.listed(Listed::ArrayLit(ty), items.items()),
            IExpr::Braces(items) => self.listed(Listed::Braces, items.items()),
            IExpr::Index(e, i) => self.binary(Binary::Index, e.get(), i.get()),
            IExpr::Unary(op, e) => self.unary(Unary::Prefix(op), e.get()),
            IExpr::Post(op, e) => self.unary(Unary::Postfix(op), e.get()),
            IExpr::Binary(op, a, b) => self.binary(Binary::Operator(op), a.get(), b.get()),
            IExpr::Assign(op, a, b) => self.binary(Binary::Assignment(op), a.get(), b.get()),
            IExpr::Cast(ty, e) => self.unary(Unary::Cast(ty), e.get()),
            IExpr::InstanceOf(e, ty) => self.unary(Unary::InstanceOf(ty), e.get()),
        }
    }

    /// An operand as it is written, in a box.
    #[cycle(write_expr)]
    pub(crate) fn operand(&self, e: &IExpr) -> Result<Boxed<Expr>, OutOfMemory>
        ensures { IfOk result (λ tree. tree
            ≡ tree_of (N.writer self.now.names.now) (N.locals self.now.names.now) e.now) }
    {
        let tree = self.expr(e)?;
        Boxed::new(self.alloc, tree)
    }

    /// Expressions as they are written, one after the other, with each `at` 0.
    #[cycle(write_expr)]
    pub fn exprs(&self, items: &[IExpr]) -> Result<List<Expr>, OutOfMemory>
        ensures { IfOk result (λ trees. trees
            ≡ map (tree_of (N.writer self.now.names.now) (N.locals self.now.names.now)) items.now) }
    {
        let mut trees = List::with_capacity(self.alloc, items.len())?;
        for item in items {
            let tree = self.expr(item)?;
            trees.add(tree)?;
        }
        Ok(trees)
    }

    /// The values of arguments as they are written, one after the other, with each `at` 0.
    #[cycle(write_expr)]
    pub fn arguments(&self, args: &[Argument]) -> Result<List<Expr>, OutOfMemory>
        ensures { IfOk result (λ trees. trees
            ≡ map (argument_tree (N.writer self.now.names.now) (N.locals self.now.names.now)) args.now) }
    {
        let mut trees = List::with_capacity(self.alloc, args.len())?;
        for arg in args {
            let tree = self.expr(&arg.value)?;
            trees.add(tree)?;
        }
        Ok(trees)
    }
}
