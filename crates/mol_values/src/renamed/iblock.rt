//! Bodies, blocks and statements, renamed.
ghost use Rattle.std.specs.Prelude.{◌≡◌, IfOk, map};
ghost use Rattle.mol_values_types.specs.Blocks.{branch_of};
ghost use Rattle.mol_values_types.specs.Renamed.{rename_expr, rename_declarator, rename_let, rename_start, rename_else, rename_node, rename_block, rename_if, rename_statement, rename_body};
ghost use Rattle.mol_values.specs.Renaming.{name_in};

use crate::renamed::{
    name_of, rename_all, rename_arguments, rename_expr, rename_maybe, rename_type,
};
use indexmap::IndexMap;
use mol_base::{Boxed, Id, List, OutOfMemory, both};
use mol_values_types::{
    IBlock, IBody, IDeclarator, IElse, IExpr, IForStart, IIf, ILet, IStmt, IStmtNode, copy_texts,
};
use std::alloc::Global;

/// The body, renamed.
pub(crate) fn rename_body(
    alloc: Global,
    names: &IndexMap<Id, Id>,
    body: &IBody,
) -> Result<IBody, OutOfMemory>
    ensures { IfOk result (λ renamed. renamed ≡ rename_body (name_in names.now.entries) body.now) }
{
    Ok(IBody {
        block: rename_block(alloc, names, &body.block)?,
    })
}

/// The variable and its first value, renamed.
pub(crate) fn rename_declarator(
    alloc: Global,
    names: &IndexMap<Id, Id>,
    declarator: &IDeclarator,
) -> Result<IDeclarator, OutOfMemory>
    ensures { IfOk result (λ renamed. renamed ≡ rename_declarator (name_in names.now.entries) declarator.now) }
{
    Ok(IDeclarator {
        name: declarator.name.copy(alloc)?,
        init: rename_maybe(alloc, names, &declarator.init)?,
    })
}

fn rename_names(
    alloc: Global,
    names: &IndexMap<Id, Id>,
    items: &[IDeclarator],
) -> Result<List<IDeclarator>, OutOfMemory>
    ensures { IfOk result (λ all. all ≡ map (rename_declarator (name_in names.now.entries)) items.now) }
{
    let mut all = List::new(alloc);
    for item in items {
        all.add(rename_declarator(alloc, names, item)?)?;
    }
    Ok(all)
}

/// The declaration, renamed.
pub(crate) fn rename_let(
    alloc: Global,
    names: &IndexMap<Id, Id>,
    decl: &ILet,
) -> Result<ILet, OutOfMemory>
    ensures { IfOk result (λ renamed. renamed ≡ rename_let (name_in names.now.entries) decl.now) }
{
    Ok(ILet {
        is_final: decl.is_final,
        ty: rename_type(alloc, names, &decl.ty)?,
        names: rename_names(alloc, names, decl.names.items())?,
    })
}

/// The start, renamed.
pub(crate) fn rename_start(
    alloc: Global,
    names: &IndexMap<Id, Id>,
    start: &IForStart,
) -> Result<IForStart, OutOfMemory>
    ensures { IfOk result (λ renamed. renamed ≡ rename_start (name_in names.now.entries) start.now) }
{
    match start {
        IForStart::None => Ok(IForStart::None),
        IForStart::Let(decl) => Ok(IForStart::Let(rename_let(alloc, names, decl)?)),
        IForStart::Do(all) => Ok(IForStart::Do(rename_all(alloc, names, all.items())?)),
    }
}

/// The block, renamed.
#[cycle(rename_istmt)]
pub(crate) fn rename_block(
    alloc: Global,
    names: &IndexMap<Id, Id>,
    block: &IBlock,
) -> Result<IBlock, OutOfMemory>
    ensures { IfOk result (λ renamed. renamed ≡ rename_block (name_in names.now.entries) block.now) }
{
    Ok(IBlock {
        items: rename_stmts(alloc, names, block.items.items())?,
        tail: copy_texts(alloc, block.tail.items())?,
    })
}

/// The statement, renamed.
#[cycle(rename_istmt)]
pub(crate) fn rename_statement(
    alloc: Global,
    names: &IndexMap<Id, Id>,
    statement: &IStmt,
) -> Result<IStmt, OutOfMemory>
    ensures { IfOk result (λ renamed. renamed ≡ rename_statement (name_in names.now.entries) statement.now) }
{
    Ok(IStmt {
        notes: copy_texts(alloc, statement.notes.items())?,
        node: rename_node(alloc, names, &statement.node)?,
    })
}

/// What follows `else`, renamed.
#[cycle(rename_istmt)]
pub(crate) fn rename_else(
    alloc: Global,
    names: &IndexMap<Id, Id>,
    rest: &IElse,
) -> Result<IElse, OutOfMemory>
    ensures { IfOk result (λ renamed. renamed ≡ rename_else (name_in names.now.entries) rest.now) }
{
    match rest {
        IElse::None => Ok(IElse::None),
        IElse::Block(block) => Ok(IElse::Block(rename_block(alloc, names, block)?)),
        IElse::If(branch) => Ok(IElse::If(Boxed::new(
            alloc,
            rename_if(alloc, names, branch.get())?,
        )?)),
    }
}

/// The `if`, renamed.
#[cycle(rename_istmt)]
pub(crate) fn rename_if(
    alloc: Global,
    names: &IndexMap<Id, Id>,
    branch: &IIf,
) -> Result<IIf, OutOfMemory>
    ensures { IfOk result (λ renamed. renamed ≡ rename_if (name_in names.now.entries) branch.now) }
{
    let then = rename_block(alloc, names, &branch.then)?;
    let rest = rename_else(alloc, names, &branch.rest)?;
    branch_of(alloc, names, &branch.test, then, rest)
}

/// An `if` of these branches, whose test is this one, renamed.
fn branch_of(
    alloc: Global,
    names: &IndexMap<Id, Id>,
    test: &IExpr,
    then: IBlock,
    rest: IElse,
) -> Result<IIf, OutOfMemory>
    ensures { IfOk result (λ branch. branch ≡ branch_of (rename_expr (name_in names.now.entries) test.now) then rest) }
{
    Ok(IIf {
        test: rename_expr(alloc, names, test)?,
        then,
        rest,
    })
}

/// A statement without its comments, renamed.
#[cycle(rename_istmt)]
pub(crate) fn rename_node(
    alloc: Global,
    names: &IndexMap<Id, Id>,
    node: &IStmtNode,
) -> Result<IStmtNode, OutOfMemory>
    ensures { IfOk result (λ renamed. renamed ≡ rename_node (name_in names.now.entries) node.now) }
{
    match node {
        IStmtNode::Block(block) => match rename_block(alloc, names, block) {
            Ok(block) => Ok(IStmtNode::Block(block)),
            Err(want) => Err(want),
        },
        IStmtNode::Let(decl) => match rename_let(alloc, names, decl) {
            Ok(decl) => Ok(IStmtNode::Let(decl)),
            Err(want) => Err(want),
        },
        IStmtNode::Do(e) => match rename_expr(alloc, names, e) {
            Ok(e) => Ok(IStmtNode::Do(e)),
            Err(want) => Err(want),
        },
        IStmtNode::If(branch) => match rename_if(alloc, names, branch) {
            Ok(branch) => Ok(IStmtNode::If(branch)),
            Err(want) => Err(want),
        },
        IStmtNode::While(e, body) => match both(
            rename_expr(alloc, names, e),
            rename_block(alloc, names, body),
        ) {
            Ok((e, body)) => Ok(IStmtNode::While(e, body)),
            Err(want) => Err(want),
        },
        IStmtNode::For(start, test, steps, body) => match both(
            rename_start(alloc, names, start),
            both(
                rename_maybe(alloc, names, test),
                both(
                    rename_all(alloc, names, steps.items()),
                    rename_block(alloc, names, body),
                ),
            ),
        ) {
            Ok((start, (test, (steps, body)))) => Ok(IStmtNode::For(start, test, steps, body)),
            Err(want) => Err(want),
        },
        IStmtNode::Each(is_final, ty, name, e, body) => match both(
            rename_type(alloc, names, ty),
            both(
                name.copy(alloc),
                both(
                    rename_expr(alloc, names, e),
                    rename_block(alloc, names, body),
                ),
            ),
        ) {
            Ok((ty, (name, (e, body)))) => Ok(IStmtNode::Each(*is_final, ty, name, e, body)),
            Err(want) => Err(want),
        },
        IStmtNode::Return(e) => match rename_maybe(alloc, names, e) {
            Ok(e) => Ok(IStmtNode::Return(e)),
            Err(want) => Err(want),
        },
        IStmtNode::Throw(e) => match rename_expr(alloc, names, e) {
            Ok(e) => Ok(IStmtNode::Throw(e)),
            Err(want) => Err(want),
        },
        IStmtNode::Break => Ok(IStmtNode::Break),
        IStmtNode::Continue => Ok(IStmtNode::Continue),
        IStmtNode::Empty => Ok(IStmtNode::Empty),
        IStmtNode::Super(constructor, args) => match rename_arguments(alloc, names, args.items()) {
            Ok(args) => Ok(IStmtNode::Super(name_of(names, constructor), args)),
            Err(want) => Err(want),
        },
        IStmtNode::SuperDefault(class) => Ok(IStmtNode::SuperDefault(name_of(names, class))),
        IStmtNode::SuperOutside(args) => match rename_all(alloc, names, args.items()) {
            Ok(args) => Ok(IStmtNode::SuperOutside(args)),
            Err(want) => Err(want),
        },
    }
}

#[cycle(rename_istmt)]
fn rename_stmts(
    alloc: Global,
    names: &IndexMap<Id, Id>,
    items: &[IStmt],
) -> Result<List<IStmt>, OutOfMemory>
    ensures { IfOk result (λ all. all ≡ map (rename_statement (name_in names.now.entries)) items.now) }
{
    let mut all = List::new(alloc);
    for item in items {
        all.add(rename_statement(alloc, names, item)?)?;
    }
    Ok(all)
}
