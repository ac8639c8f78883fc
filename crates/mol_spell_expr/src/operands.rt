//! Expressions over one, two or three operands (JLS 15.10.3, 15.11, 15.14 to 15.26).
ghost use Rattle.std.specs.Prelude.{◌≡◌, IfOk};
ghost use Rattle.jav_tree.specs.declared.expr.ExprNode.TheVariants as node;
ghost use Rattle.mol_spell_rules.specs.SpelledExpressions.{made, spelled_expr, type_here};
ghost use Rattle.mol_spell_expr.specs.Parts.{field_on, over_operand, over_operands, tree_of};

use crate::expr_writer::ExprWriter;
use crate::names::Names;
use crate::operators::{Binary, choice_of, over_operands, postfixed, prefixed};
use crate::trees::{dot, made};
use crate::type_place::TypePlace;
use jav_tree::{Expr, ExprNode};
use mol_base::{Boxed, Id, OutOfMemory, Text};
use mol_values_types::{IExpr, IType};

/// What stands over one operand.
#[derive(Clone, Copy)]
pub(crate) enum Unary<'a> {
    /// A name after it and a dot.
    Dot(&'a str),
    /// An operator before it.
    Prefix(&'a Text),
    /// An operator after it.
    Postfix(&'a Text),
    /// A cast to a type.
    Cast(&'a IType),
    /// A test of whether it is of a type.
    InstanceOf(&'a IType),
}

impl<N: Names> ExprWriter<'_, N> {
    /// A field of the program, of what an expression gives.
    #[cycle(write_expr)]
    pub(crate) fn field_on(&self, field: &Id, on: &IExpr) -> Result<Expr, OutOfMemory>
        ensures { let writer = N.writer self.now.names.now in
            let locals = N.locals self.now.names.now in
            IfOk result (λ tree. tree ≡ field_on writer locals field.now (spelled_expr writer locals on.now)) }
    {
        match on {
            IExpr::This => self.own_field(field),
            _ => self.unary(Unary::Dot(self.names.name_of(field)), on),
        }
    }

    /// An expression over one operand.
    #[cycle(write_expr)]
    pub(crate) fn unary(&self, kind: Unary<'_>, operand: &IExpr) -> Result<Expr, OutOfMemory>
        ensures { let writer = N.writer self.now.names.now in
            let locals = N.locals self.now.names.now in
            IfOk result (λ tree. tree ≡ over_operand writer locals kind.entry (tree_of writer locals operand.now)) }
    {
        let operand = self.operand(operand)?;
        self.over_operand(kind, operand)
    }

    /// What stands over an operand that is written.
    fn over_operand(&self, kind: Unary<'_>, operand: Boxed<Expr>) -> Result<Expr, OutOfMemory>
        ensures { IfOk result (λ tree. tree
            ≡ over_operand (N.writer self.now.names.now) (N.locals self.now.names.now) kind.entry operand) }
    {
        match kind {
            Unary::Dot(name) => dot(self.alloc, operand, name),
            Unary::Prefix(op) => prefixed(self.alloc, op, operand),
            Unary::Postfix(op) => postfixed(self.alloc, operand, op),
            Unary::Cast(ty) => self.cast(ty, operand),
            Unary::InstanceOf(ty) => self.instance_of(operand, ty),
        }
    }

    /// A cast.
    fn cast(&self, ty: &IType, operand: Boxed<Expr>) -> Result<Expr, OutOfMemory>
        ensures { IfOk result (λ tree. tree ≡ made (node.Cast
            (type_here (N.writer self.now.names.now) (N.locals self.now.names.now) ty.now).tree operand)) }
    {
        let ty = self.type_name(TypePlace::Expression, ty)?;
        Ok(made(ExprNode::Cast(ty, operand)))
    }

    /// A test of whether a value is of a type.
    fn instance_of(&self, operand: Boxed<Expr>, ty: &IType) -> Result<Expr, OutOfMemory>
        ensures { IfOk result (λ tree. tree ≡ made (node.InstanceOf operand
            (type_here (N.writer self.now.names.now) (N.locals self.now.names.now) ty.now).tree)) }
    {
        let ty = self.type_name(TypePlace::Expression, ty)?;
        Ok(made(ExprNode::InstanceOf(operand, ty)))
    }

    /// An expression over two operands.
    #[cycle(write_expr)]
    pub(crate) fn binary(
        &self,
        kind: Binary<'_>,
        first: &IExpr,
        second: &IExpr,
    ) -> Result<Expr, OutOfMemory>
        ensures { let writer = N.writer self.now.names.now in
            let locals = N.locals self.now.names.now in
            IfOk result (λ tree. tree
            ≡ over_operands kind.entry (tree_of writer locals first.now) (tree_of writer locals second.now)) }
    {
        let first = self.operand(first)?;
        over_operands(self.alloc, kind, first, self.operand(second))
    }

    /// A choice.
    #[cycle(write_expr)]
    pub(crate) fn choice(
        &self,
        test: &IExpr,
        first: &IExpr,
        second: &IExpr,
    ) -> Result<Expr, OutOfMemory>
        ensures { let writer = N.writer self.now.names.now in
            let locals = N.locals self.now.names.now in
            IfOk result (λ tree. tree ≡ made (node.Cond (tree_of writer locals test.now) (tree_of writer locals first.now)
            (tree_of writer locals second.now))) }
    {
        let test = self.operand(test)?;
        let first = self.operand(first)?;
        choice_of(test, first, self.operand(second))
    }
}
