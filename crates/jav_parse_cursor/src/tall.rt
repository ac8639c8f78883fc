//! Expressions with their heights.
ghost use Rattle.std.specs.Prelude.{◌≡◌, ◌<◌, ◌+◌, ◌/◌, ◌^◌, ◌∷◌, IfOk, length};
ghost use Rattle.jav_lex.specs.Token.{seen, all_seen};
ghost use Rattle.jav_parse_cursor.specs.Nodes as spec;

use crate::limits::Limits;
use jav_lex::Token;
use jav_tree::{Expr, ExprNode, TypeName};
use mol_base::{Boxed, List, OutOfMemory};

/// What may follow an expression.
#[derive(Clone, Copy)]
pub enum Shape {
    /// A name, a field access or an array access: `=` and `++` may follow.
    Target,
    /// A call or `new T(..)`: a statement as it stands.
    Invocation,
    /// A literal, `this` or an expression in parentheses.
    Atom,
    /// An array creation, which no index follows.
    Array,
    /// An expression with operators outside parentheses.
    Loose,
}

impl Shape {
    ghost use Rattle.std.specs.Prelude.{◌≡◌};
    ghost use Rattle.jav_parse_cursor.specs.Nodes.{is_target, is_invocation, is_array};

    pub fn is_target(self) -> bool
        ensures { result ≡ is_target self }
    {
        match self {
            Shape::Target => true,
            Shape::Invocation | Shape::Atom | Shape::Array | Shape::Loose => false,
        }
    }

    pub fn is_invocation(self) -> bool
        ensures { result ≡ is_invocation self }
    {
        match self {
            Shape::Invocation => true,
            Shape::Target | Shape::Atom | Shape::Array | Shape::Loose => false,
        }
    }

    pub fn is_array(self) -> bool
        ensures { result ≡ is_array self }
    {
        match self {
            Shape::Array => true,
            Shape::Target | Shape::Invocation | Shape::Atom | Shape::Loose => false,
        }
    }
}

/// An expression, its height, and what may follow it. The tree is in a box, as it stands below another one.
#[derive(Drop)]
pub struct Tall {
    pub expr: Boxed<Expr>,
    pub height: usize,
    pub shape: Shape,
}

/// Expressions in a list, and the height of the highest: 0 where there is none.
#[derive(Drop)]
pub struct Listed {
    pub exprs: List<Expr>,
    pub height: usize,
}

pub fn no_exprs(limits: Limits) -> Listed
    ensures { result ≡ spec.no_exprs }
{
    Listed {
        exprs: List::new(limits.alloc),
        height: 0,
    }
}

pub fn with(all: Listed, x: Tall) -> Result<Listed, OutOfMemory>
    ensures { IfOk result (λ y. y ≡ spec.with all x) }
{
    let Listed { mut exprs, height } = all;
    let Tall {
        expr,
        height: own,
        ..
    } = x;
    exprs.add(expr.into_inner())?;
    Ok(Listed {
        exprs,
        height: height.max(own),
    })
}

fn make(
    limits: Limits,
    at: u32,
    node: ExprNode,
    height: usize,
    shape: Shape,
) -> Result<Tall, OutOfMemory>
    ensures { IfOk result (λ y. y ≡ record { expr = record { at = at; node = node }; height = height; shape = shape }) }
{
    Ok(Tall {
        expr: Boxed::new(limits.alloc, Expr { at, node })?,
        height,
        shape,
    })
}

pub fn literal(limits: Limits, token: &Token) -> Result<Tall, OutOfMemory>
    ensures { IfOk result (λ y. y ≡ spec.literal (seen token.now)) }
{
    let text = token.text.copy(limits.alloc)?;
    make(limits, token.start, ExprNode::Lit(text), 1, Shape::Atom)
}

pub fn this(limits: Limits, token: &Token) -> Result<Tall, OutOfMemory>
    ensures { IfOk result (λ y. y ≡ spec.this (seen token.now)) }
{
    make(limits, token.start, ExprNode::This, 1, Shape::Atom)
}

pub fn name(limits: Limits, token: &Token) -> Result<Tall, OutOfMemory>
    ensures { IfOk result (λ y. y ≡ spec.name (seen token.now)) }
{
    let text = token.text.copy(limits.alloc)?;
    make(limits, token.start, ExprNode::Name(text), 1, Shape::Target)
}

pub fn dotted(limits: Limits, x: Tall, token: &Token) -> Result<Tall, OutOfMemory>
    requires { x.height < 2 ^ 63 }
    ensures { IfOk result (λ y. y ≡ spec.dotted x (seen token.now)) }
{
    let text = token.text.copy(limits.alloc)?;
    let at = x.expr.get().at;
    let node = ExprNode::Dot(x.expr, text);
    make(limits, at, node, x.height + 1, Shape::Target)
}

/// `e.name(..)`.
pub fn called_on(limits: Limits, x: Tall, token: &Token, args: Listed) -> Result<Tall, OutOfMemory>
    requires x { x.height < 2 ^ 63 }
    requires args { args.height < 2 ^ 63 }
    ensures { IfOk result (λ y. y ≡ spec.called_on x (seen token.now) args) }
{
    let text = token.text.copy(limits.alloc)?;
    let at = x.expr.get().at;
    let node = ExprNode::Call(Some(x.expr), text, args.exprs);
    let height = x.height.max(args.height) + 1;
    make(limits, at, node, height, Shape::Invocation)
}

/// `name(..)`.
pub fn called(limits: Limits, token: &Token, args: Listed) -> Result<Tall, OutOfMemory>
    requires { args.height < 2 ^ 63 }
    ensures { IfOk result (λ y. y ≡ spec.called (seen token.now) args) }
{
    let text = token.text.copy(limits.alloc)?;
    let node = ExprNode::Call(None, text, args.exprs);
    let height = args.height + 1;
    make(limits, token.start, node, height, Shape::Invocation)
}

/// `super.name(..)`.
pub fn super_called(
    limits: Limits,
    at: u32,
    token: &Token,
    args: Listed,
) -> Result<Tall, OutOfMemory>
    requires { args.height < 2 ^ 63 }
    ensures { IfOk result (λ y. y ≡ spec.super_called at (seen token.now) args) }
{
    let text = token.text.copy(limits.alloc)?;
    let node = ExprNode::SuperCall(text, args.exprs);
    make(limits, at, node, args.height + 1, Shape::Invocation)
}

/// `new T(..)`.
pub fn created(limits: Limits, at: u32, ty: TypeName, args: Listed) -> Result<Tall, OutOfMemory>
    requires { args.height < 2 ^ 63 }
    ensures { IfOk result (λ y. y ≡ spec.created at ty args) }
{
    let node = ExprNode::New(ty, args.exprs);
    make(limits, at, node, args.height + 1, Shape::Invocation)
}

/// `new T[e]..[]..`.
pub fn sized(
    limits: Limits,
    at: u32,
    base: TypeName,
    sizes: Listed,
    empty: u32,
) -> Result<Tall, OutOfMemory>
    requires { sizes.height < 2 ^ 63 }
    ensures { IfOk result (λ y. y ≡ spec.sized at base sizes empty) }
{
    let node = ExprNode::NewArray(base, sizes.exprs, empty);
    make(limits, at, node, sizes.height + 1, Shape::Array)
}

/// `new T[].. {..}`.
pub fn filled(limits: Limits, at: u32, ty: TypeName, items: Listed) -> Result<Tall, OutOfMemory>
    requires { items.height < 2 ^ 63 }
    ensures { IfOk result (λ y. y ≡ spec.filled at ty items) }
{
    let node = ExprNode::ArrayLit(ty, items.exprs);
    make(limits, at, node, items.height + 1, Shape::Array)
}

/// Items in braces.
pub fn braced(limits: Limits, at: u32, items: Listed) -> Result<Tall, OutOfMemory>
    requires { items.height < 2 ^ 63 }
    ensures { IfOk result (λ y. y ≡ spec.braced at items) }
{
    let node = ExprNode::Braces(items.exprs);
    make(limits, at, node, items.height + 1, Shape::Loose)
}

pub fn indexed(limits: Limits, x: Tall, i: Tall) -> Result<Tall, OutOfMemory>
    requires x { x.height < 2 ^ 63 }
    requires i { i.height < 2 ^ 63 }
    ensures { IfOk result (λ y. y ≡ spec.indexed x i) }
{
    let at = x.expr.get().at;
    let height = x.height.max(i.height) + 1;
    let node = ExprNode::Index(x.expr, i.expr);
    make(limits, at, node, height, Shape::Target)
}

pub fn in_parens(limits: Limits, at: u32, x: Tall) -> Result<Tall, OutOfMemory>
    requires { x.height < 2 ^ 63 }
    ensures { IfOk result (λ y. y ≡ spec.in_parens at x) }
{
    let node = ExprNode::Paren(x.expr);
    make(limits, at, node, x.height + 1, Shape::Atom)
}

/// An operator before its operand.
pub fn unary(limits: Limits, op: &Token, x: Tall) -> Result<Tall, OutOfMemory>
    requires { x.height < 2 ^ 63 }
    ensures { IfOk result (λ y. y ≡ spec.unary (seen op.now) x) }
{
    let text = op.text.copy(limits.alloc)?;
    let node = ExprNode::Unary(text, x.expr);
    make(limits, op.start, node, x.height + 1, Shape::Loose)
}

/// `++` or `--` after its operand.
pub fn stepped(limits: Limits, x: Tall, op: &Token) -> Result<Tall, OutOfMemory>
    requires { x.height < 2 ^ 63 }
    ensures { IfOk result (λ y. y ≡ spec.stepped x (seen op.now)) }
{
    let text = op.text.copy(limits.alloc)?;
    let at = x.expr.get().at;
    let node = ExprNode::Post(x.expr, text);
    make(limits, at, node, x.height + 1, Shape::Loose)
}

pub fn cast(limits: Limits, at: u32, ty: TypeName, x: Tall) -> Result<Tall, OutOfMemory>
    requires { x.height < 2 ^ 63 }
    ensures { IfOk result (λ y. y ≡ spec.cast at ty x) }
{
    let node = ExprNode::Cast(ty, x.expr);
    make(limits, at, node, x.height + 1, Shape::Loose)
}

pub fn tested(limits: Limits, x: Tall, ty: TypeName) -> Result<Tall, OutOfMemory>
    requires { x.height < 2 ^ 63 }
    ensures { IfOk result (λ y. y ≡ spec.tested x ty) }
{
    let at = x.expr.get().at;
    let node = ExprNode::InstanceOf(x.expr, ty);
    make(limits, at, node, x.height + 1, Shape::Loose)
}

pub fn joined(limits: Limits, x: Tall, op: &Token, y: Tall) -> Result<Tall, OutOfMemory>
    requires x { x.height < 2 ^ 63 }
    requires y { y.height < 2 ^ 63 }
    ensures { IfOk result (λ z. z ≡ spec.joined x (seen op.now) y) }
{
    let text = op.text.copy(limits.alloc)?;
    let at = x.expr.get().at;
    let height = x.height.max(y.height) + 1;
    let node = ExprNode::Binary(x.expr, text, y.expr);
    make(limits, at, node, height, Shape::Loose)
}

pub fn assigned(limits: Limits, x: Tall, op: &Token, y: Tall) -> Result<Tall, OutOfMemory>
    requires x { x.height < 2 ^ 63 }
    requires y { y.height < 2 ^ 63 }
    ensures { IfOk result (λ z. z ≡ spec.assigned x (seen op.now) y) }
{
    let text = op.text.copy(limits.alloc)?;
    let at = x.expr.get().at;
    let height = x.height.max(y.height) + 1;
    let node = ExprNode::Assign(x.expr, text, y.expr);
    make(limits, at, node, height, Shape::Loose)
}

pub fn chosen(limits: Limits, test: Tall, x: Tall, y: Tall) -> Result<Tall, OutOfMemory>
    requires test { test.height < 2 ^ 63 }
    requires x { x.height < 2 ^ 63 }
    requires y { y.height < 2 ^ 63 }
    ensures { IfOk result (λ z. z ≡ spec.chosen test x y) }
{
    let at = test.expr.get().at;
    let height = test.height.max(x.height.max(y.height)) + 1;
    let node = ExprNode::Cond(test.expr, x.expr, y.expr);
    make(limits, at, node, height, Shape::Loose)
}

/// The field that goes on from `first` by dots and names.
#[tactic(auto, unfolding(crate::specs::Nodes::dotted_by))]
fn dotted_by(limits: Limits, first: Tall, rest: &[Token]) -> Result<Tall, OutOfMemory>
    requires { first.height + length rest.now < 2 ^ 63 }
    ensures made { IfOk result (λ y. y ≡ spec.dotted_by first (all_seen rest.now)) }
    ensures height { IfOk result (λ y. y.height ≡ first.height + length rest.now / 2) }
{
    let mut left = first;
    let mut after = rest;
    while let [_, token, further @ ..] = after {
        left = dotted(limits, left, token)?;
        after = further;
    }
    Ok(left)
}

/// The variable or field of some names with the dots between them: one name at least. Where no names are
/// built it is the first name, with the height of them all.
#[tactic(auto, unfolding(crate::specs::Nodes::named))]
pub fn named(limits: Limits, first: &Token, rest: &[Token]) -> Result<Tall, OutOfMemory>
    ensures made { IfOk result (λ y. y ≡ spec.named limits.builds (seen first.now ∷ all_seen rest.now)) }
    ensures height { IfOk result (λ y. y.height ≡ length rest.now / 2 + 1) }
{
    let left = name(limits, first)?;
    if limits.builds {
        return dotted_by(limits, left, rest);
    }
    let Tall { expr, shape, .. } = left;
    Ok(Tall {
        expr,
        height: rest.len() / 2 + 1,
        shape,
    })
}
