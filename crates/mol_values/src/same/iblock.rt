ghost use Rattle.std.specs.Prelude.{◌≡◌, ◌↔◌, IsTrue};

use crate::same::{
    same_all, same_arguments, same_expr, same_id, same_maybe, same_text, same_texts, same_type,
};
use mol_values_types::{IBlock, IBody, IDeclarator, IElse, IForStart, IIf, ILet, IStmt, IStmtNode};

/// Whether both are the same body. It takes no memory.
pub fn same_body(one: &IBody, other: &IBody) -> bool
    ensures { IsTrue result ↔ one.now ≡ other.now }
{
    same_block(&one.block, &other.block)
}

/// Whether both are the same variable, with the same first value.
pub fn same_declarator(one: &IDeclarator, other: &IDeclarator) -> bool
    ensures { IsTrue result ↔ one.now ≡ other.now }
{
    if !same_text(&one.name, &other.name) {
        return false;
    }
    same_maybe(&one.init, &other.init)
}

/// Whether both lists have the same variables.
fn same_names(items: &[IDeclarator], others: &[IDeclarator]) -> bool
    ensures { IsTrue result ↔ items.now ≡ others.now }
{
    if items.len() != others.len() {
        return false;
    }
    for i in 0..items.len() {
        if !same_declarator(&items[i], &others[i]) {
            return false;
        }
    }
    true
}

/// Whether both are the same declaration.
pub fn same_let(one: &ILet, other: &ILet) -> bool
    ensures { IsTrue result ↔ one.now ≡ other.now }
{
    if one.is_final != other.is_final {
        return false;
    }
    if !same_type(&one.ty, &other.ty) {
        return false;
    }
    same_names(one.names.items(), other.names.items())
}

/// Whether both are the same start.
pub fn same_start(one: &IForStart, other: &IForStart) -> bool
    ensures { IsTrue result ↔ one.now ≡ other.now }
{
    match one {
        IForStart::None => match other {
            IForStart::None => true,
            _ => false,
        },
        IForStart::Let(a0) => match other {
            IForStart::Let(b0) => { same_let(a0, b0) }
            _ => false,
        },
        IForStart::Do(a0) => match other {
            IForStart::Do(b0) => { same_all(a0.items(), b0.items()) }
            _ => false,
        },
    }
}

/// Whether both are the same block.
#[cycle(same_istmt)]
pub fn same_block(one: &IBlock, other: &IBlock) -> bool
    ensures { IsTrue result ↔ one.now ≡ other.now }
{
    if !same_stmts(one.items.items(), other.items.items()) {
        return false;
    }
    same_texts(one.tail.items(), other.tail.items())
}

/// Whether both are the same statement.
#[cycle(same_istmt)]
pub fn same_statement(one: &IStmt, other: &IStmt) -> bool
    ensures { IsTrue result ↔ one.now ≡ other.now }
{
    if !same_texts(one.notes.items(), other.notes.items()) {
        return false;
    }
    same_node(&one.node, &other.node)
}

/// Whether both are the same `if`.
#[cycle(same_istmt)]
pub fn same_if(one: &IIf, other: &IIf) -> bool
    ensures { IsTrue result ↔ one.now ≡ other.now }
{
    if !same_expr(&one.test, &other.test) {
        return false;
    }
    if !same_block(&one.then, &other.then) {
        return false;
    }
    same_else(&one.rest, &other.rest)
}

/// Whether both are the same.
#[cycle(same_istmt)]
pub fn same_else(one: &IElse, other: &IElse) -> bool
    ensures { IsTrue result ↔ one.now ≡ other.now }
{
    match one {
        IElse::None => match other {
            IElse::None => true,
            _ => false,
        },
        IElse::Block(a0) => match other {
            IElse::Block(b0) => { same_block(a0, b0) }
            _ => false,
        },
        IElse::If(a0) => match other {
            IElse::If(b0) => { same_if(a0.get(), b0.get()) }
            _ => false,
        },
    }
}

/// Whether both are the same statement, comments aside.
#[cycle(same_istmt)]
pub fn same_node(one: &IStmtNode, other: &IStmtNode) -> bool
    ensures { IsTrue result ↔ one.now ≡ other.now }
{
    match one {
        IStmtNode::Block(a0) => match other {
            IStmtNode::Block(b0) => { same_block(a0, b0) }
            _ => false,
        },
        IStmtNode::Let(a0) => match other {
            IStmtNode::Let(b0) => { same_let(a0, b0) }
            _ => false,
        },
        IStmtNode::Do(a0) => match other {
            IStmtNode::Do(b0) => { same_expr(a0, b0) }
            _ => false,
        },
        IStmtNode::If(a0) => match other {
            IStmtNode::If(b0) => { same_if(a0, b0) }
            _ => false,
        },
        IStmtNode::While(a0, a1) => match other {
            IStmtNode::While(b0, b1) => {
                if !same_expr(a0, b0) {
                    return false;
                }
                same_block(a1, b1)
            }
            _ => false,
        },
        IStmtNode::For(a0, a1, a2, a3) => match other {
            IStmtNode::For(b0, b1, b2, b3) => {
                if !same_start(a0, b0) {
                    return false;
                }
                if !same_maybe(a1, b1) {
                    return false;
                }
                if !same_all(a2.items(), b2.items()) {
                    return false;
                }
                same_block(a3, b3)
            }
            _ => false,
        },
        IStmtNode::Each(a0, a1, a2, a3, a4) => match other {
            IStmtNode::Each(b0, b1, b2, b3, b4) => {
                if *a0 != *b0 {
                    return false;
                }
                if !same_type(a1, b1) {
                    return false;
                }
                if !same_text(a2, b2) {
                    return false;
                }
                if !same_expr(a3, b3) {
                    return false;
                }
                same_block(a4, b4)
            }
            _ => false,
        },
        IStmtNode::Return(a0) => match other {
            IStmtNode::Return(b0) => { same_maybe(a0, b0) }
            _ => false,
        },
        IStmtNode::Throw(a0) => match other {
            IStmtNode::Throw(b0) => { same_expr(a0, b0) }
            _ => false,
        },
        IStmtNode::Break => match other {
            IStmtNode::Break => true,
            _ => false,
        },
        IStmtNode::Continue => match other {
            IStmtNode::Continue => true,
            _ => false,
        },
        IStmtNode::Empty => match other {
            IStmtNode::Empty => true,
            _ => false,
        },
        IStmtNode::Super(a0, a1) => match other {
            IStmtNode::Super(b0, b1) => {
                if !same_id(a0, b0) {
                    return false;
                }
                same_arguments(a1.items(), b1.items())
            }
            _ => false,
        },
        IStmtNode::SuperDefault(a0) => match other {
            IStmtNode::SuperDefault(b0) => { same_id(a0, b0) }
            _ => false,
        },
        IStmtNode::SuperOutside(a0) => match other {
            IStmtNode::SuperOutside(b0) => { same_all(a0.items(), b0.items()) }
            _ => false,
        },
    }
}

/// Whether both lists have the same statements.
#[cycle(same_istmt)]
fn same_stmts(items: &[IStmt], others: &[IStmt]) -> bool
    ensures { IsTrue result ↔ items.now ≡ others.now }
{
    if items.len() != others.len() {
        return false;
    }
    for i in 0..items.len() {
        if !same_statement(&items[i], &others[i]) {
            return false;
        }
    }
    true
}
