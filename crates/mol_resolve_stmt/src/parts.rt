//! Parts of statements, put together where each has a value.
ghost use Rattle.std.specs.Prelude.{◌≡◌, ℕ, IfOk, Some, option_map};
ghost use Rattle.std.specs.Option.{option_zip};
ghost use Rattle.jav_names.specs.UnitViews.{MemberKey};
ghost use Rattle.mol_resolve_readings.specs.meant.Kept.{view_part, view_reading};
ghost use Rattle.mol_resolve_rules.specs.Readers.{Reader};
ghost use Rattle.mol_resolve_rules.specs.ReadStatements.{let_of};
ghost use Rattle.mol_resolve_stmt.specs.Made as spec;
ghost use Rattle.mol_resolve_stmt.specs.Made.{tree_part};
ghost use Rattle.mol_values_types.specs.declared.iblock.IElse.TheVariants as elses;
ghost use Rattle.mol_values_types.specs.declared.iblock.IForStart.TheVariants as starts;
ghost use Rattle.mol_values_types.specs.declared.iblock.IStmtNode.TheVariants as nodes;

use mol_base::{Boxed, List, OutOfMemory, Text};
use mol_resolve_readings::{Meant, ReadType};
use mol_values_types::{
    IBlock, IBody, IDeclarator, IElse, IExpr, IForStart, IIf, ILet, IStmt, IStmtNode, copy_texts,
};
use std::alloc::Global;

/// One more item after others.
pub(crate) fn with_item<T: Drop>(
    all: Option<List<T>>,
    item: Option<T>,
) -> Result<Option<List<T>>, OutOfMemory>
    ensures { IfOk result (λ longer. longer ≡ option_map spec.put_last (option_zip all item)) }
{
    let Some(mut all) = all else {
        return Ok(None);
    };
    let Some(item) = item else {
        return Ok(None);
    };
    all.add(item)?;
    Ok(Some(all))
}

/// A block of statements, with the comments before its end.
pub(crate) fn block_of(
    alloc: Global,
    items: Option<List<IStmt>>,
    tail: &[Text],
) -> Result<Option<IBlock>, OutOfMemory>
    ensures { IfOk result (λ block. block ≡ option_map (spec.block tail.now) items) }
{
    match items {
        Some(items) => Ok(Some(IBlock {
            items,
            tail: copy_texts(alloc, tail)?,
        })),
        None => Ok(None),
    }
}

/// A statement with the comments before it.
pub(crate) fn with_notes(
    alloc: Global,
    notes: &[Text],
    node: Option<IStmtNode>,
) -> Result<Option<IStmt>, OutOfMemory>
    ensures { IfOk result (λ statement. statement ≡ option_map (spec.statement notes.now) node) }
{
    match node {
        Some(node) => Ok(Some(IStmt {
            notes: copy_texts(alloc, notes)?,
            node,
        })),
        None => Ok(None),
    }
}

/// The test of an `if`, its branch, and what follows `else`.
pub(crate) fn branches(
    test: Option<Meant>,
    then: Option<IBlock>,
    rest: Option<IElse>,
) -> Option<IIf>
    ensures { result ≡ option_map spec.branches (option_zip (option_zip (tree_part (view_part test)) then) rest) }
{
    let Some(test) = test else {
        return None;
    };
    let Some(then) = then else {
        return None;
    };
    match rest {
        Some(rest) => Some(IIf {
            test: test.into_tree(),
            then,
            rest,
        }),
        None => None,
    }
}

/// A block after `else`.
pub(crate) fn else_of(block: Option<IBlock>) -> Option<IElse>
    ensures { result ≡ option_map (λ block. elses.Block block) block }
{
    match block {
        Some(block) => Some(IElse::Block(block)),
        None => None,
    }
}

/// The branches of an `if` after `else`.
pub(crate) fn else_if(alloc: Global, branches: Option<IIf>) -> Result<Option<IElse>, OutOfMemory>
    ensures { IfOk result (λ rest. rest ≡ option_map spec.else_if branches) }
{
    match branches {
        Some(branches) => Ok(Some(IElse::If(Boxed::new(alloc, branches)?))),
        None => Ok(None),
    }
}

/// A statement after `else` that is no `if`, as the only one of a block.
pub(crate) fn else_block(
    alloc: Global,
    statement: Option<IStmt>,
) -> Result<Option<IElse>, OutOfMemory>
    ensures { IfOk result (λ rest. rest ≡ option_map spec.else_block statement) }
{
    let Some(statement) = statement else {
        return Ok(None);
    };
    let mut items = List::new(alloc);
    items.add(statement)?;
    let tail = List::new(alloc);
    Ok(Some(IElse::Block(IBlock { items, tail })))
}

/// A declaration of its type and its variables.
pub(crate) fn declaration(
    is_final: bool,
    ty: Option<ReadType>,
    names: Option<List<IDeclarator>>,
) -> Option<ILet>
    ensures { (reader : Reader ℕ MemberKey) → result ≡ option_map (let_of reader is_final) (option_zip (view_reading ty) names) }
{
    let Some(ty) = ty else {
        return None;
    };
    match names {
        Some(names) => Some(ILet {
            is_final,
            ty: ty.into_tree(),
            names,
        }),
        None => None,
    }
}

/// A variable of a declaration.
pub(crate) fn declarator(
    alloc: Global,
    name: &Text,
    init: Option<Option<IExpr>>,
) -> Result<Option<IDeclarator>, OutOfMemory>
    ensures { IfOk result (λ declarator. declarator ≡ option_map (spec.declarator name.now) init) }
{
    match init {
        Some(init) => Ok(Some(IDeclarator {
            name: name.copy(alloc)?,
            init,
        })),
        None => Ok(None),
    }
}

/// A block as a statement.
pub(crate) fn inner_block(block: Option<IBlock>) -> Option<IStmtNode>
    ensures { result ≡ option_map (λ block. nodes.Block block) block }
{
    match block {
        Some(block) => Some(IStmtNode::Block(block)),
        None => None,
    }
}

/// An `if`.
pub(crate) fn branch(branches: Option<IIf>) -> Option<IStmtNode>
    ensures { result ≡ option_map (λ branches. nodes.If branches) branches }
{
    match branches {
        Some(branches) => Some(IStmtNode::If(branches)),
        None => None,
    }
}

/// A declaration as the first part of the header of a `for`.
pub(crate) fn start_of_let(declared: Option<ILet>) -> Option<IForStart>
    ensures { result ≡ option_map (λ declared. starts.Let declared) declared }
{
    match declared {
        Some(declared) => Some(IForStart::Let(declared)),
        None => None,
    }
}

/// Expressions as the first part of the header of a `for`.
pub(crate) fn start_of_values(values: Option<List<IExpr>>) -> Option<IForStart>
    ensures { result ≡ option_map (λ values. starts.Do values) values }
{
    match values {
        Some(values) => Some(IForStart::Do(values)),
        None => None,
    }
}

/// An expression as a statement.
pub(crate) fn action(e: Option<Meant>) -> Option<IStmtNode>
    ensures { result ≡ option_map (λ e. nodes.Do e) (tree_part (view_part e)) }
{
    match e {
        Some(e) => Some(IStmtNode::Do(e.into_tree())),
        None => None,
    }
}

/// A value that is thrown.
pub(crate) fn thrown(e: Option<Meant>) -> Option<IStmtNode>
    ensures { result ≡ option_map (λ e. nodes.Throw e) (tree_part (view_part e)) }
{
    match e {
        Some(e) => Some(IStmtNode::Throw(e.into_tree())),
        None => None,
    }
}

/// An expression that is there.
pub(crate) fn present(e: Option<Meant>) -> Option<Option<IExpr>>
    ensures { result ≡ option_map (λ e. Some e) (tree_part (view_part e)) }
{
    match e {
        Some(e) => Some(Some(e.into_tree())),
        None => None,
    }
}

/// A value that is given back, if there is one.
pub(crate) fn returned(e: Option<Option<IExpr>>) -> Option<IStmtNode>
    ensures { result ≡ option_map (λ e. nodes.Return e) e }
{
    match e {
        Some(e) => Some(IStmtNode::Return(e)),
        None => None,
    }
}

/// A declaration as a statement.
pub(crate) fn let_statement(declared: Option<ILet>) -> Option<IStmtNode>
    ensures { result ≡ option_map (λ declared. nodes.Let declared) declared }
{
    match declared {
        Some(declared) => Some(IStmtNode::Let(declared)),
        None => None,
    }
}

/// A body of its block.
pub(crate) fn body_of(block: Option<IBlock>) -> Option<IBody>
    ensures { result ≡ option_map spec.body block }
{
    match block {
        Some(block) => Some(IBody { block }),
        None => None,
    }
}
