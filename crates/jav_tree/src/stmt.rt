//! Blocks and statements (JLS 14).
use crate::expr::Expr;
use crate::types::TypeName;
use mol_base::{Boxed, List, Text};

/// Statements between braces.
#[cycle(stmt)]
#[derive(Drop)]
pub struct Block {
    pub items: List<Stmt>,
    /// Comments before the last brace.
    pub tail: List<Text>,
}

/// A statement, the comments before it, and where it begins.
#[cycle(stmt)]
#[derive(Drop)]
pub struct Stmt {
    pub notes: List<Text>,
    /// Where its first token stands in the source, comments left out: in bytes, from 0.
    pub at: u32,
    pub node: StmtNode,
}

/// What a statement is. A branch or loop body that is no block in the source stands in one here.
#[cycle(stmt)]
#[derive(Drop)]
pub enum StmtNode {
    Block(Block),
    /// A declaration of local variables.
    Let(Let),
    /// An expression as a statement.
    Do(Expr),
    /// `if`: the test, the branch, and what follows `else`.
    If(Expr, Block, Else),
    While(Expr, Block),
    /// `for (start; test; steps)` and its body.
    For(ForStart, Option<Expr>, List<Expr>, Block),
    /// `for (T name : e)` and its body. The first part says whether `final` stands before the type.
    Each(bool, TypeName, Text, Expr, Block),
    Return(Option<Expr>),
    Throw(Expr),
    Break,
    Continue,
    /// `;` alone.
    Empty,
    /// `super(..);`.
    SuperInit(List<Expr>),
}

/// What follows `else`.
#[cycle(stmt)]
#[derive(Drop)]
pub enum Else {
    /// There is no `else`.
    None,
    Block(Block),
    /// `else if`: the second `if`, a statement of its own with node `If`.
    If(Boxed<Stmt>),
}

/// A declaration of local variables of one type.
#[derive(Drop)]
pub struct Let {
    pub is_final: bool,
    pub ty: TypeName,
    /// At least one.
    pub names: List<Declarator>,
}

/// A variable of a declaration.
#[derive(Drop)]
pub struct Declarator {
    pub name: Text,
    pub init: Option<Expr>,
}

/// What stands before the first `;` in the header of a `for`.
#[derive(Drop)]
pub enum ForStart {
    None,
    Let(Let),
    /// Expressions, at least one.
    Do(List<Expr>),
}
