//! Bodies, blocks and statements, tidied.
ghost use Rattle.std.specs.Prelude.{◌≡◌, IfOk, map};
ghost use Rattle.mol_values_types.specs.Blocks.{branch_of};
ghost use Rattle.mol_table.specs.Tidying.{expr_by, declarator_by, let_by, start_by, else_by, node_by, block_by, if_by, statement_by, body_by};

use crate::maps::Maps;
use crate::tidy::{tidy_all, tidy_arguments, tidy_expr, tidy_maybe};
use indexmap::IndexMap;
use mol_base::{Boxed, Id, List, OutOfMemory, both};
use mol_values_types::{
    IBlock, IBody, IDeclarator, IElse, IExpr, IForStart, IIf, ILet, IStmt, IStmtNode, copy_texts,
};
use std::alloc::Global;

/// The body, tidied.
pub(crate) fn tidy_body(
    alloc: Global,
    maps: &Maps,
    index: &IndexMap<Id, Id>,
    body: &IBody,
) -> Result<IBody, OutOfMemory>
    ensures { IfOk result (λ tidied. tidied ≡ body_by maps.now index.now.entries body.now) }
{
    Ok(IBody {
        block: tidy_block(alloc, maps, index, &body.block)?,
    })
}

/// The variable and its first value, tidied.
fn tidy_declarator(
    alloc: Global,
    maps: &Maps,
    index: &IndexMap<Id, Id>,
    declarator: &IDeclarator,
) -> Result<IDeclarator, OutOfMemory>
    ensures { IfOk result (λ tidied. tidied ≡ declarator_by maps.now index.now.entries declarator.now) }
{
    Ok(IDeclarator {
        name: declarator.name.copy(alloc)?,
        init: tidy_maybe(alloc, maps, index, &declarator.init)?,
    })
}

fn tidy_names(
    alloc: Global,
    maps: &Maps,
    index: &IndexMap<Id, Id>,
    items: &[IDeclarator],
) -> Result<List<IDeclarator>, OutOfMemory>
    ensures { IfOk result (λ all. all ≡ map (declarator_by maps.now index.now.entries) items.now) }
{
    let mut all = List::new(alloc);
    for item in items {
        all.add(tidy_declarator(alloc, maps, index, item)?)?;
    }
    Ok(all)
}

/// The declaration, tidied.
fn tidy_let(
    alloc: Global,
    maps: &Maps,
    index: &IndexMap<Id, Id>,
    decl: &ILet,
) -> Result<ILet, OutOfMemory>
    ensures { IfOk result (λ tidied. tidied ≡ let_by maps.now index.now.entries decl.now) }
{
    Ok(ILet {
        is_final: decl.is_final,
        ty: decl.ty.copy(alloc)?,
        names: tidy_names(alloc, maps, index, decl.names.items())?,
    })
}

/// The start, tidied.
fn tidy_start(
    alloc: Global,
    maps: &Maps,
    index: &IndexMap<Id, Id>,
    start: &IForStart,
) -> Result<IForStart, OutOfMemory>
    ensures { IfOk result (λ tidied. tidied ≡ start_by maps.now index.now.entries start.now) }
{
    match start {
        IForStart::None => Ok(IForStart::None),
        IForStart::Let(decl) => Ok(IForStart::Let(tidy_let(alloc, maps, index, decl)?)),
        IForStart::Do(all) => Ok(IForStart::Do(tidy_all(alloc, maps, index, all.items())?)),
    }
}

/// The block, tidied.
#[cycle(tidy_istmt)]
fn tidy_block(
    alloc: Global,
    maps: &Maps,
    index: &IndexMap<Id, Id>,
    block: &IBlock,
) -> Result<IBlock, OutOfMemory>
    ensures { IfOk result (λ tidied. tidied ≡ block_by maps.now index.now.entries block.now) }
{
    Ok(IBlock {
        items: tidy_stmts(alloc, maps, index, block.items.items())?,
        tail: copy_texts(alloc, block.tail.items())?,
    })
}

/// The statement, tidied.
#[cycle(tidy_istmt)]
fn tidy_statement(
    alloc: Global,
    maps: &Maps,
    index: &IndexMap<Id, Id>,
    statement: &IStmt,
) -> Result<IStmt, OutOfMemory>
    ensures { IfOk result (λ tidied. tidied ≡ statement_by maps.now index.now.entries statement.now) }
{
    Ok(IStmt {
        notes: copy_texts(alloc, statement.notes.items())?,
        node: tidy_node(alloc, maps, index, &statement.node)?,
    })
}

/// What follows `else`, tidied.
#[cycle(tidy_istmt)]
fn tidy_else(
    alloc: Global,
    maps: &Maps,
    index: &IndexMap<Id, Id>,
    rest: &IElse,
) -> Result<IElse, OutOfMemory>
    ensures { IfOk result (λ tidied. tidied ≡ else_by maps.now index.now.entries rest.now) }
{
    match rest {
        IElse::None => Ok(IElse::None),
        IElse::Block(block) => Ok(IElse::Block(tidy_block(alloc, maps, index, block)?)),
        IElse::If(branch) => Ok(IElse::If(Boxed::new(
            alloc,
            tidy_if(alloc, maps, index, branch.get())?,
        )?)),
    }
}

/// The `if`, tidied.
#[cycle(tidy_istmt)]
fn tidy_if(
    alloc: Global,
    maps: &Maps,
    index: &IndexMap<Id, Id>,
    branch: &IIf,
) -> Result<IIf, OutOfMemory>
    ensures { IfOk result (λ tidied. tidied ≡ if_by maps.now index.now.entries branch.now) }
{
    let then = tidy_block(alloc, maps, index, &branch.then)?;
    let rest = tidy_else(alloc, maps, index, &branch.rest)?;
    branch_of(alloc, maps, index, &branch.test, then, rest)
}

/// An `if` of these branches, whose test is this one, tidied.
fn branch_of(
    alloc: Global,
    maps: &Maps,
    index: &IndexMap<Id, Id>,
    test: &IExpr,
    then: IBlock,
    rest: IElse,
) -> Result<IIf, OutOfMemory>
    ensures { IfOk result (λ branch. branch ≡ branch_of (expr_by maps.now index.now.entries test.now) then rest) }
{
    Ok(IIf {
        test: tidy_expr(alloc, maps, index, test)?,
        then,
        rest,
    })
}

/// A statement without its comments, tidied.
#[cycle(tidy_istmt)]
fn tidy_node(
    alloc: Global,
    maps: &Maps,
    index: &IndexMap<Id, Id>,
    node: &IStmtNode,
) -> Result<IStmtNode, OutOfMemory>
    ensures { IfOk result (λ tidied. tidied ≡ node_by maps.now index.now.entries node.now) }
{
    match node {
        IStmtNode::Block(block) => match tidy_block(alloc, maps, index, block) {
            Ok(block) => Ok(IStmtNode::Block(block)),
            Err(want) => Err(want),
        },
        IStmtNode::Let(decl) => match tidy_let(alloc, maps, index, decl) {
            Ok(decl) => Ok(IStmtNode::Let(decl)),
            Err(want) => Err(want),
        },
        IStmtNode::Do(e) => match tidy_expr(alloc, maps, index, e) {
            Ok(e) => Ok(IStmtNode::Do(e)),
            Err(want) => Err(want),
        },
        IStmtNode::If(branch) => match tidy_if(alloc, maps, index, branch) {
            Ok(branch) => Ok(IStmtNode::If(branch)),
            Err(want) => Err(want),
        },
        IStmtNode::While(e, body) => match both(
            tidy_expr(alloc, maps, index, e),
            tidy_block(alloc, maps, index, body),
        ) {
            Ok((e, body)) => Ok(IStmtNode::While(e, body)),
            Err(want) => Err(want),
        },
        IStmtNode::For(start, test, steps, body) => match both(
            tidy_start(alloc, maps, index, start),
            both(
                tidy_maybe(alloc, maps, index, test),
                both(
                    tidy_all(alloc, maps, index, steps.items()),
                    tidy_block(alloc, maps, index, body),
                ),
            ),
        ) {
            Ok((start, (test, (steps, body)))) => Ok(IStmtNode::For(start, test, steps, body)),
            Err(want) => Err(want),
        },
        IStmtNode::Each(is_final, ty, name, e, body) => match both(
            ty.copy(alloc),
            both(
                name.copy(alloc),
                both(
                    tidy_expr(alloc, maps, index, e),
                    tidy_block(alloc, maps, index, body),
                ),
            ),
        ) {
            Ok((ty, (name, (e, body)))) => Ok(IStmtNode::Each(*is_final, ty, name, e, body)),
            Err(want) => Err(want),
        },
        IStmtNode::Return(e) => match tidy_maybe(alloc, maps, index, e) {
            Ok(e) => Ok(IStmtNode::Return(e)),
            Err(want) => Err(want),
        },
        IStmtNode::Throw(e) => match tidy_expr(alloc, maps, index, e) {
            Ok(e) => Ok(IStmtNode::Throw(e)),
            Err(want) => Err(want),
        },
        IStmtNode::Break => Ok(IStmtNode::Break),
        IStmtNode::Continue => Ok(IStmtNode::Continue),
        IStmtNode::Empty => Ok(IStmtNode::Empty),
        IStmtNode::Super(constructor, args) => match tidy_arguments(
            alloc,
            maps,
            index,
            constructor,
            args.items(),
        ) {
            Ok(args) => Ok(IStmtNode::Super(*constructor, args)),
            Err(want) => Err(want),
        },
        IStmtNode::SuperDefault(class) => Ok(IStmtNode::SuperDefault(*class)),
        IStmtNode::SuperOutside(args) => match tidy_all(alloc, maps, index, args.items()) {
            Ok(args) => Ok(IStmtNode::SuperOutside(args)),
            Err(want) => Err(want),
        },
    }
}

#[cycle(tidy_istmt)]
fn tidy_stmts(
    alloc: Global,
    maps: &Maps,
    index: &IndexMap<Id, Id>,
    items: &[IStmt],
) -> Result<List<IStmt>, OutOfMemory>
    ensures { IfOk result (λ all. all ≡ map (statement_by maps.now index.now.entries) items.now) }
{
    let mut all = List::new(alloc);
    for item in items {
        all.add(tidy_statement(alloc, maps, index, item)?)?;
    }
    Ok(all)
}
