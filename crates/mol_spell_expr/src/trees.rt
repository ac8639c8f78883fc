//! Expressions of their parts. Places in a source do not matter to what is written, and are all the same.
ghost use Rattle.std.specs.Prelude.{◌≡◌, IfOk, IsOkAnd, Some};
ghost use Rattle.jav_tree.specs.declared.expr.ExprNode.TheVariants as node;
ghost use Rattle.jav_tree.specs.declared.types.TypeName.TheVariants as types;
ghost use Rattle.mol_spell_rules.specs.SpelledExpressions.{dot_tree, made, name_tree};
ghost use Rattle.mol_spell_expr.specs.Calls.{call_node};

use jav_tree::{Expr, ExprNode, TypeName};
use mol_base::{Boxed, List, OutOfMemory, Text};
use std::alloc::Global;

/// An expression of this kind, at place 0.
pub(crate) fn made(node: ExprNode) -> Expr
    ensures { result ≡ made node }
{
    Expr { at: 0, node }
}

/// A literal.
pub(crate) fn literal(alloc: Global, text: &Text) -> Result<Expr, OutOfMemory>
    ensures { IfOk result (λ tree. tree ≡ made (node.Lit text.now)) }
{
    let text = text.copy(alloc)?;
    Ok(made(ExprNode::Lit(text)))
}

/// A name.
pub(crate) fn named(alloc: Global, name: &str) -> Result<Expr, OutOfMemory>
    ensures { IfOk result (λ tree. tree ≡ name_tree name.now) }
{
    let name = Text::from_str(alloc, name)?;
    Ok(made(ExprNode::Name(name)))
}

/// A name after an expression and a dot.
pub(crate) fn dot(alloc: Global, on: Boxed<Expr>, name: &str) -> Result<Expr, OutOfMemory>
    ensures { IfOk result (λ tree. tree ≡ dot_tree on name.now) }
{
    let name = Text::from_str(alloc, name)?;
    Ok(made(ExprNode::Dot(on, name)))
}

/// A call by a name, after an expression and a dot if there is one.
pub(crate) fn call(
    alloc: Global,
    on: Option<Boxed<Expr>>,
    name: &str,
    args: List<Expr>,
) -> Result<Expr, OutOfMemory>
    ensures { IfOk result (λ tree. tree ≡ call_node on name.now args) }
{
    let name = Text::from_str(alloc, name)?;
    Ok(made(ExprNode::Call(on, name, args)))
}

/// A call after an expression and a dot, with the arguments that were written after that.
pub(crate) fn call_on(
    alloc: Global,
    on: Boxed<Expr>,
    name: &str,
    args: Result<List<Expr>, OutOfMemory>,
) -> Result<Expr, OutOfMemory>
    ensures { IfOk result (λ tree. IsOkAnd args (λ args. tree ≡ call_node (Some on) name.now args)) }
{
    let args = args?;
    call(alloc, Some(on), name, args)
}

/// A call after `super.`.
pub(crate) fn super_call(alloc: Global, name: &str, args: List<Expr>) -> Result<Expr, OutOfMemory>
    ensures { IfOk result (λ tree. tree ≡ made (node.SuperCall name.now args)) }
{
    let name = Text::from_str(alloc, name)?;
    Ok(made(ExprNode::SuperCall(name, args)))
}

/// A creation of an object of the class of this name.
pub(crate) fn created(text: Text, args: List<Expr>) -> Expr
    ensures { result ≡ made (node.New (types.Named text) args) }
{
    made(ExprNode::New(TypeName::Named(text), args))
}
