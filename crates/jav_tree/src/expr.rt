//! Expressions (JLS 15).
use crate::types::TypeName;
use mol_base::{Boxed, List, Text};

/// An expression and where it begins.
#[cycle(expr)]
#[derive(Drop)]
pub struct Expr {
    /// The offset of its first token, in bytes: that of its left operand where it begins with one.
    pub at: u32,
    pub node: ExprNode,
}

/// What an expression is. The parts stand in the order in which the source has them.
#[cycle(expr)]
#[derive(Drop)]
pub enum ExprNode {
    /// A literal, as it is written: `0`, `"desk"`, `'x'`, `true`, `null`.
    Lit(Text),
    /// `this`.
    This,
    /// A name that stands alone: `count`.
    Name(Text),
    /// `e.name`.
    Dot(Boxed<Expr>, Text),
    /// `e.name(..)`, or `name(..)` where there is no expression before it.
    Call(Option<Boxed<Expr>>, Text, List<Expr>),
    /// `super.name(..)`.
    SuperCall(Text, List<Expr>),
    /// `new T(..)`.
    New(TypeName, List<Expr>),
    /// `new T[e]..[]..`: the type of the items before all brackets, the sizes, and how many pairs
    /// of empty brackets follow them.
    NewArray(TypeName, List<Expr>, u32),
    /// `new T[].. {..}`: the whole array type, and the items.
    ArrayLit(TypeName, List<Expr>),
    /// `{..}`, as the first value of a variable or as an item of such braces.
    Braces(List<Expr>),
    /// `e[e]`.
    Index(Boxed<Expr>, Boxed<Expr>),
    /// A prefix operator and its operand: `-e`, `++e`.
    Unary(Text, Boxed<Expr>),
    /// An operand and `++` or `--`.
    Post(Boxed<Expr>, Text),
    /// Two operands with an operator between them.
    Binary(Boxed<Expr>, Text, Boxed<Expr>),
    /// `=` or a compound assignment.
    Assign(Boxed<Expr>, Text, Boxed<Expr>),
    /// `test ? one : other`.
    Cond(Boxed<Expr>, Boxed<Expr>, Boxed<Expr>),
    /// `(T) e`.
    Cast(TypeName, Boxed<Expr>),
    /// `e instanceof T`.
    InstanceOf(Boxed<Expr>, TypeName),
    /// `(e)`, as the source has it. The layout needs none of these.
    Paren(Boxed<Expr>),
}
