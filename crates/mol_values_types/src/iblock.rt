//! Bodies, blocks and statements by identity (JLS 14).
use crate::{Argument, IExpr, IType};
use mol_base::{Boxed, Id, List, Text};

/// The body of a method or constructor that is not abstract.
#[derive(Drop)]
pub struct IBody {
    pub block: IBlock,
}

/// Statements between braces.
#[cycle(istmt)]
#[derive(Drop)]
pub struct IBlock {
    pub items: List<IStmt>,
    /// Comments before the last brace.
    pub tail: List<Text>,
}

/// A statement, and the comments before it.
#[cycle(istmt)]
#[derive(Drop)]
pub struct IStmt {
    pub notes: List<Text>,
    pub node: IStmtNode,
}

/// What a statement is.
#[cycle(istmt)]
#[derive(Drop)]
pub enum IStmtNode {
    Block(IBlock),
    /// A declaration of local variables.
    Let(ILet),
    /// An expression as a statement.
    Do(IExpr),
    If(IIf),
    While(IExpr, IBlock),
    /// `for (start; test; steps)` and its body.
    For(IForStart, Option<IExpr>, List<IExpr>, IBlock),
    /// `for (T name : e)` and its body. The first part says whether `final` stands before the type.
    Each(bool, IType, Text, IExpr, IBlock),
    Return(Option<IExpr>),
    Throw(IExpr),
    Break,
    Continue,
    /// `;` alone.
    Empty,
    /// `superc`: `super(..)`, by this constructor.
    Super(Id, List<Argument>),
    /// `superd`: `super()`, by the default constructor of this class.
    SuperDefault(Id),
    /// `superout`: `super(..)` of a class outside.
    SuperOutside(List<IExpr>),
}

/// What follows `else`.
#[cycle(istmt)]
#[derive(Drop)]
pub enum IElse {
    /// There is no `else`.
    None,
    Block(IBlock),
    /// `else if`.
    If(Boxed<IIf>),
}

/// `if`: the test, the branch, and what follows `else`.
#[cycle(istmt)]
#[derive(Drop)]
pub struct IIf {
    pub test: IExpr,
    pub then: IBlock,
    pub rest: IElse,
}

/// A declaration of local variables of one type.
#[derive(Drop)]
pub struct ILet {
    pub is_final: bool,
    pub ty: IType,
    /// At least one.
    pub names: List<IDeclarator>,
}

/// A variable of a declaration, and its first value.
#[derive(Drop)]
pub struct IDeclarator {
    pub name: Text,
    pub init: Option<IExpr>,
}

/// What stands before the first `;` in the header of a `for`.
#[derive(Drop)]
pub enum IForStart {
    None,
    Let(ILet),
    /// Expressions, at least one.
    Do(List<IExpr>),
}
