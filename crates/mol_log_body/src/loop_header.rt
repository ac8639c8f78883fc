//! What stands before the block of a loop (JLS 14.12, 14.14).
ghost use Rattle.std.specs.Prelude.{◌≡◌};
ghost use Rattle.mol_log_body.specs.BodyReader as reader;
ghost use Rattle.mol_log_body.specs.ReadsIn.{ReadsIn, result_map};
ghost use Rattle.mol_log_words.specs.Reads.{Reads};

use crate::stmt_head::{Choice, LoopHead, StartHead};
use crate::take::{take_choice, take_start_head};
use crate::variables::{maybe, variables};
use mol_base::{Boxed, List, Text};
use mol_log_expr::{ExprRole, Scope, expr, exprs};
use mol_log_words::{Bounds, Cursor, Fault, MAX_DIMENSIONS, TextForm, TypeRole, type_name};
use mol_values_types::{IBlock, IExpr, IForStart, IStmtNode, IType};
use std::alloc::Global;

/// A loop without its block.
#[derive(Drop)]
pub enum LoopHeader {
    While(IExpr),
    /// The start, the test, and what is done after each turn.
    For(IForStart, Option<IExpr>, List<IExpr>),
    /// A `for` over the items of an array or a collection. The first part says whether its local is final.
    Each(bool, IType, Text, IExpr),
}

/// What stands before the first `;` in the header of a `for`.
fn for_start(
    alloc: Global,
    words: &mut Cursor<'_>,
    depth: u32,
    scope: &mut Scope,
) -> Result<IForStart, Fault>
    ensures { ReadsIn (reader.for_start depth scope.old words.old) result scope.new words.new }
{
    match take_start_head(words, depth)? {
        StartHead::None => Ok(IForStart::None),
        StartHead::Let => Ok(IForStart::Let(variables(alloc, words, depth, scope)?)),
        StartHead::Do => {
            let all = exprs(
                alloc,
                words,
                ExprRole::Statement,
                Bounds::Positive,
                depth,
                scope,
            )?;
            Ok(IForStart::Do(all))
        }
    }
}

/// The header of a `for` with a start, a test and steps.
fn for_header(
    alloc: Global,
    words: &mut Cursor<'_>,
    depth: u32,
    scope: &mut Scope,
) -> Result<LoopHeader, Fault>
    ensures { ReadsIn (reader.for_header depth scope.old words.old) result scope.new words.new }
{
    let start = for_start(alloc, words, depth, scope)?;
    let test = maybe(alloc, words, Choice::Some, ExprRole::Value, depth, scope)?;
    let steps = exprs(alloc, words, ExprRole::Statement, Bounds::Any, depth, scope)?;
    Ok(LoopHeader::For(start, test, steps))
}

/// The header of a `for` over items, whose local is not in scope yet.
fn each_parts(
    alloc: Global,
    words: &mut Cursor<'_>,
    depth: u32,
    scope: &Scope,
) -> Result<LoopHeader, Fault>
    ensures { Reads (reader.each_parts depth scope.now.locals words.old) result words.new }
{
    let is_final = take_choice(words, Choice::Final, true)?;
    let ty = type_name(alloc, words, TypeRole::Value, MAX_DIMENSIONS)?;
    let name = words.text(alloc, TextForm::Name)?;
    let all = expr(alloc, words, ExprRole::Value, depth, scope)?;
    Ok(LoopHeader::Each(is_final, ty, name, all))
}

/// The header of a `for` over items. Its local is in scope after it.
fn each_header(
    alloc: Global,
    words: &mut Cursor<'_>,
    depth: u32,
    scope: &mut Scope,
) -> Result<Boxed<LoopHeader>, Fault>
    ensures { ReadsIn (reader.each_header depth scope.old words.old) result scope.new words.new }
{
    let parts = each_parts(alloc, words, depth, scope)?;
    let header = Boxed::new(alloc, parts)?;
    scope.declare()?;
    Ok(header)
}

/// Takes the header of a loop after its first word, with expressions no higher than `depth`. The locals that it
/// declares are in scope after it.
pub fn loop_header(
    alloc: Global,
    words: &mut Cursor<'_>,
    head: LoopHead,
    depth: u32,
    scope: &mut Scope,
) -> Result<Boxed<LoopHeader>, Fault>
    ensures { ReadsIn (reader.header_by depth scope.old head words.old) result scope.new words.new }
{
    match head {
        LoopHead::While => {
            let test = expr(alloc, words, ExprRole::Value, depth, scope)?;
            Ok(Boxed::new(alloc, LoopHeader::While(test))?)
        }
        LoopHead::For => {
            let header = for_header(alloc, words, depth, scope)?;
            Ok(Boxed::new(alloc, header)?)
        }
        LoopHead::Each => each_header(alloc, words, depth, scope),
    }
}

/// The loop of this header and block.
fn with_block(header: LoopHeader, block: IBlock) -> IStmtNode
    ensures { result ≡ reader.looped header block }
{
    match header {
        LoopHeader::While(test) => IStmtNode::While(test, block),
        LoopHeader::For(start, test, steps) => IStmtNode::For(start, test, steps, block),
        LoopHeader::Each(is_final, ty, name, all) => {
            IStmtNode::Each(is_final, ty, name, all, block)
        }
    }
}

/// The loop of this header and the block that was read after it. The header is in a box, so that letting go of it is one step.
pub fn looped(header: Boxed<LoopHeader>, block: Result<IBlock, Fault>) -> Result<IStmtNode, Fault>
    ensures { result ≡ result_map (reader.looped header) block }
{
    let block = block?;
    Ok(with_block(header.into_inner(), block))
}
