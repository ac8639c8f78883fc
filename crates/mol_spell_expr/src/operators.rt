//! Operators with the operands that are written (JLS 15.10.3, 15.14 to 15.26).
ghost use Rattle.std.specs.Prelude.{◌≡◌, IfOk, IsOkAnd};
ghost use Rattle.jav_tree.specs.declared.expr.ExprNode.TheVariants as node;
ghost use Rattle.mol_spell_rules.specs.SpelledExpressions.{made};
ghost use Rattle.mol_spell_expr.specs.Parts.{over_operands};

use crate::trees::made;
use jav_tree::{Expr, ExprNode};
use mol_base::{Boxed, OutOfMemory, Text};
use std::alloc::Global;

/// What stands over two operands.
#[derive(Clone, Copy)]
pub(crate) enum Binary<'a> {
    /// An operator between them.
    Operator(&'a Text),
    /// An operator that assigns the second to the first.
    Assignment(&'a Text),
    /// An item of the first, an array, at the second.
    Index,
}

/// An operator before an operand.
pub(crate) fn prefixed(alloc: Global, op: &Text, operand: Boxed<Expr>) -> Result<Expr, OutOfMemory>
    ensures { IfOk result (λ tree. tree ≡ made (node.Unary op.now operand)) }
{
    let op = op.copy(alloc)?;
    Ok(made(ExprNode::Unary(op, operand)))
}

/// An operator after an operand.
pub(crate) fn postfixed(alloc: Global, operand: Boxed<Expr>, op: &Text) -> Result<Expr, OutOfMemory>
    ensures { IfOk result (λ tree. tree ≡ made (node.Post operand op.now)) }
{
    let op = op.copy(alloc)?;
    Ok(made(ExprNode::Post(operand, op)))
}

/// What stands over two operands, the second of which was written after the first.
pub(crate) fn over_operands(
    alloc: Global,
    kind: Binary<'_>,
    first: Boxed<Expr>,
    second: Result<Boxed<Expr>, OutOfMemory>,
) -> Result<Expr, OutOfMemory>
    ensures { IfOk result (λ tree. IsOkAnd second (λ second. tree ≡ over_operands kind.entry first second)) }
{
    let second = second?;
    over_both(alloc, kind, first, second)
}

/// What stands over two operands.
fn over_both(
    alloc: Global,
    kind: Binary<'_>,
    first: Boxed<Expr>,
    second: Boxed<Expr>,
) -> Result<Expr, OutOfMemory>
    ensures { IfOk result (λ tree. tree ≡ over_operands kind.entry first second) }
{
    match kind {
        Binary::Operator(op) => between(alloc, first, op, second),
        Binary::Assignment(op) => assigned(alloc, first, op, second),
        Binary::Index => Ok(made(ExprNode::Index(first, second))),
    }
}

/// An operator between two operands.
fn between(
    alloc: Global,
    first: Boxed<Expr>,
    op: &Text,
    second: Boxed<Expr>,
) -> Result<Expr, OutOfMemory>
    ensures { IfOk result (λ tree. tree ≡ made (node.Binary first op.now second)) }
{
    let op = op.copy(alloc)?;
    Ok(made(ExprNode::Binary(first, op, second)))
}

/// An assignment.
fn assigned(
    alloc: Global,
    target: Boxed<Expr>,
    op: &Text,
    value: Boxed<Expr>,
) -> Result<Expr, OutOfMemory>
    ensures { IfOk result (λ tree. tree ≡ made (node.Assign target op.now value)) }
{
    let op = op.copy(alloc)?;
    Ok(made(ExprNode::Assign(target, op, value)))
}

/// A choice, the last part of which was written after the others.
pub(crate) fn choice_of(
    test: Boxed<Expr>,
    first: Boxed<Expr>,
    second: Result<Boxed<Expr>, OutOfMemory>,
) -> Result<Expr, OutOfMemory>
    ensures { IfOk result (λ tree. IsOkAnd second (λ second. tree ≡ made (node.Cond test first second))) }
{
    let second = second?;
    Ok(made(ExprNode::Cond(test, first, second)))
}
