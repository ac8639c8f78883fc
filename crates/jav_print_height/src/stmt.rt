//! Statements and blocks.
ghost use Rattle.std.specs.Prelude.{◌≡◌, map};
ghost use Rattle.jav_tree.specs.Height as tree;
ghost use Rattle.jav_print_height.specs.PrintedHeights as spec;

use crate::expr::{height_maybe, height_of, tallest};
use crate::measure::above;
use jav_tree::{Block, Declarator, Else, ForStart, Let, Stmt, StmtNode};

fn height_of_let(decl: &Let) -> u32
    ensures { result ≡ spec.let_height decl.now }
{
    tallest_names(decl.names.items())
}

fn tallest_names(names: &[Declarator]) -> u32
    ensures { result ≡ tree.tallest (map spec.declarator_height names.now) }
{
    let mut most = 0;
    for item in names {
        most = height_maybe(&item.init).max(most);
    }
    most
}

fn height_of_start(start: &ForStart) -> u32
    ensures { result ≡ spec.start_height start.now }
{
    match start {
        ForStart::None => 0,
        ForStart::Let(decl) => height_of_let(decl),
        ForStart::Do(all) => tallest(all.items()),
    }
}

/// How high a block is as it is printed: 1 where it holds no statement, else one more than the highest that it holds.
#[cycle(printed)]
pub fn height_of_block(block: &Block) -> u32
    ensures { result ≡ spec.block_height block.now }
{
    above(tallest_stmts(block.items.items()))
}

#[cycle(printed)]
fn height_of_stmt(stmt: &Stmt) -> u32
    ensures { result ≡ spec.stmt_height stmt.now }
{
    height_of_node(&stmt.node)
}

#[cycle(printed)]
fn height_of_else(otherwise: &Else) -> u32
    ensures { result ≡ spec.else_height otherwise.now }
{
    match otherwise {
        Else::None => 0,
        Else::Block(block) => height_of_block(block),
        Else::If(stmt) => height_of_stmt(stmt.get()),
    }
}

#[cycle(printed)]
fn height_of_node(node: &StmtNode) -> u32
    ensures { result ≡ spec.stmt_node_height node.now }
{
    match node {
        StmtNode::Block(block) => above(height_of_block(block)),
        StmtNode::Let(decl) => above(height_of_let(decl)),
        StmtNode::Do(e) => above(height_of(e)),
        StmtNode::If(e, then, otherwise) => {
            let branches = height_of_block(then).max(height_of_else(otherwise));
            above(height_of(e).max(branches))
        }
        StmtNode::While(e, body) => above(height_of(e).max(height_of_block(body))),
        StmtNode::For(start, test, steps, body) => {
            let steps = tallest(steps.items()).max(height_of_block(body));
            above(height_of_start(start).max(height_maybe(test).max(steps)))
        }
        StmtNode::Each(_, _, _, e, body) => above(height_of(e).max(height_of_block(body))),
        StmtNode::Return(e) => above(height_maybe(e)),
        StmtNode::Throw(e) => above(height_of(e)),
        StmtNode::Break => 1,
        StmtNode::Continue => 1,
        StmtNode::Empty => 1,
        StmtNode::SuperInit(args) => above(tallest(args.items())),
    }
}

#[cycle(printed)]
fn tallest_stmts(items: &[Stmt]) -> u32
    ensures { result ≡ tree.tallest (map spec.stmt_height items.now) }
{
    let mut most = 0;
    for item in items {
        most = height_of_stmt(item).max(most);
    }
    most
}
