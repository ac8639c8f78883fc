//! Statements and blocks from words (JLS 14).
ghost use Rattle.mol_log_body.specs.BodyReader as reader;
ghost use Rattle.mol_log_body.specs.ReadsIn.{ReadsIn};

use crate::branches::{Branches, branches_of, if_of};
use crate::lists::{block_of, noted, open_stmt};
use crate::loop_header::{loop_header, looped};
use crate::simple::{simple, super_call};
use crate::stmt_head::{ElseHead, LoopHead, NodeHead};
use crate::take::{take_block, take_else_head};
use crate::variables::variables;
use mol_base::{Boxed, List};
use mol_log_expr::{ExprRole, Scope, expr};
use mol_log_words::{Bounds, Cursor, Fault};
use mol_values_types::{IBlock, IElse, IIf, IStmt, IStmtNode};
use std::alloc::Global;

/// A statement no higher than `depth`, and the comments before it. `first` says whether it is the first one
/// of a body.
#[cycle(read_body)]
fn stmt(
    alloc: Global,
    words: &mut Cursor<'_>,
    first: bool,
    depth: u32,
    scope: &mut Scope,
) -> Result<IStmt, Fault>
    ensures { ReadsIn ((reader.level depth).stmt first scope.old words.old) result scope.new words.new }
{
    if depth == 0 {
        return Err(Fault::Bad);
    }
    let opening = open_stmt(alloc, words, first, depth - 1)?;
    let head = opening.head;
    noted(opening.notes, node(alloc, words, head, depth - 1, scope))
}

/// A statement after its first word, with parts no higher than `depth`.
#[cycle(read_body)]
fn node(
    alloc: Global,
    words: &mut Cursor<'_>,
    head: NodeHead,
    depth: u32,
    scope: &mut Scope,
) -> Result<IStmtNode, Fault>
    ensures { ReadsIn (reader.node_by depth (reader.level depth) scope.old head words.old) result scope.new words.new }
{
    match head {
        NodeHead::Block => Ok(IStmtNode::Block(items(alloc, words, false, depth, scope)?)),
        NodeHead::Let => Ok(IStmtNode::Let(variables(alloc, words, depth, scope)?)),
        NodeHead::If => Ok(IStmtNode::If(conditional(alloc, words, depth, scope)?)),
        NodeHead::Loop(head) => repetition(alloc, words, head, depth, scope),
        NodeHead::Simple(head) => simple(alloc, words, head, depth, scope),
        NodeHead::Super(head) => super_call(alloc, words, head, depth, scope),
    }
}

/// A loop after its first word, with parts no higher than `depth`.
#[cycle(read_body)]
fn repetition(
    alloc: Global,
    words: &mut Cursor<'_>,
    head: LoopHead,
    depth: u32,
    scope: &mut Scope,
) -> Result<IStmtNode, Fault>
    ensures { ReadsIn (reader.loop_by depth (reader.level depth) scope.old head words.old) result scope.new words.new }
{
    let before = scope.count();
    let header = loop_header(alloc, words, head, depth, scope)?;
    let body = block(alloc, words, false, depth, scope);
    scope.close(before);
    looped(header, body)
}

/// Takes a count and so many statements, none higher than `depth`. `first` says whether they are those of a body.
#[cycle(read_body)]
fn statements(
    alloc: Global,
    words: &mut Cursor<'_>,
    first: bool,
    depth: u32,
    scope: &mut Scope,
) -> Result<List<IStmt>, Fault>
    ensures { ReadsIn (reader.counted_statements depth (reader.level depth).stmt first scope.old words.old)
        result scope.new words.new }
{
    let count = words.count(Bounds::Any, 0 < depth)?;
    let mut all = List::new(alloc);
    let mut leading = first;
    for _turn in 0..count {
        let item = stmt(alloc, words, leading, depth, scope)?;
        all.add(item)?;
        leading = false;
    }
    // so great a count was cut off, and no memory holds as many
    if count == u64::MAX {
        return Err(Fault::OutOfMemory);
    }
    Ok(all)
}

/// Takes what stands after the word `block`, of a block no higher than `depth`, and leaves its locals. `first` says
/// whether it is a body.
#[cycle(read_body)]
fn items(
    alloc: Global,
    words: &mut Cursor<'_>,
    first: bool,
    depth: u32,
    scope: &mut Scope,
) -> Result<IBlock, Fault>
    ensures { ReadsIn ((reader.level depth).items' first scope.old words.old) result scope.new words.new }
{
    if depth == 0 {
        return Err(Fault::Bad);
    }
    let before = scope.count();
    let all = statements(alloc, words, first, depth - 1, scope)?;
    scope.close(before);
    block_of(alloc, words, all)
}

/// A block no higher than `depth`. `first` says whether it is a body.
#[cycle(read_body)]
pub fn block(
    alloc: Global,
    words: &mut Cursor<'_>,
    first: bool,
    depth: u32,
    scope: &mut Scope,
) -> Result<IBlock, Fault>
    ensures { ReadsIn (reader.block_by ((reader.level depth).items' first) scope.old words.old) result scope.new words.new }
{
    take_block(words)?;
    items(alloc, words, first, depth, scope)
}

/// The test and the branches of an `if`, none higher than `depth`.
#[cycle(read_body)]
fn conditional(
    alloc: Global,
    words: &mut Cursor<'_>,
    depth: u32,
    scope: &mut Scope,
) -> Result<IIf, Fault>
    ensures { ReadsIn (reader.if_by depth (reader.level depth) scope.old words.old) result scope.new words.new }
{
    let test = expr(alloc, words, ExprRole::Value, depth, scope)?;
    if_of(test, branches(alloc, words, depth, scope))
}

/// The branch of an `if` and what follows it, none higher than `depth`.
#[cycle(read_body)]
fn branches(
    alloc: Global,
    words: &mut Cursor<'_>,
    depth: u32,
    scope: &mut Scope,
) -> Result<Branches, Fault>
    ensures { ReadsIn (reader.branches_by (reader.level depth) scope.old words.old) result scope.new words.new }
{
    let then = block(alloc, words, false, depth, scope)?;
    branches_of(then, else_part(alloc, words, depth, scope))
}

/// What follows the branch of an `if`, no higher than `depth`.
#[cycle(read_body)]
#[tactic(auto, using(crate::proofs::BodyTurns::else_part_steps))]
fn else_part(
    alloc: Global,
    words: &mut Cursor<'_>,
    depth: u32,
    scope: &mut Scope,
) -> Result<IElse, Fault>
    ensures { ReadsIn ((reader.level depth).else_part scope.old words.old) result scope.new words.new }
{
    if depth == 0 {
        return Err(Fault::Bad);
    }
    match take_else_head(words, depth - 1)? {
        ElseHead::None => Ok(IElse::None),
        ElseHead::Block => Ok(IElse::Block(block(alloc, words, false, depth, scope)?)),
        ElseHead::If => {
            let second = conditional(alloc, words, depth - 1, scope)?;
            Ok(IElse::If(Boxed::new(alloc, second)?))
        }
    }
}
