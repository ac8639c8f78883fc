//! Statements that hold no other (JLS 14), and calls of a constructor of the superclass (JLS 8.8.7.1).
ghost use Rattle.mol_log_body.specs.BodyReader as reader;
ghost use Rattle.mol_log_words.specs.Reads.{Reads};

use crate::stmt_head::{Choice, SimpleHead, SuperHead};
use crate::variables::maybe;
use mol_log_expr::{ExprRole, Scope, arguments, expr, exprs};
use mol_log_words::{Bounds, Cursor, Fault};
use mol_values_types::IStmtNode;
use std::alloc::Global;

/// A statement that holds no other, after its first word.
pub fn simple(
    alloc: Global,
    words: &mut Cursor<'_>,
    head: SimpleHead,
    depth: u32,
    scope: &Scope,
) -> Result<IStmtNode, Fault>
    ensures { Reads (reader.simple_by depth scope.now.locals head words.old) result words.new }
{
    match head {
        SimpleHead::Do => {
            let e = expr(alloc, words, ExprRole::Statement, depth, scope)?;
            Ok(IStmtNode::Do(e))
        }
        SimpleHead::Return => {
            let value = maybe(alloc, words, Choice::Some, ExprRole::Value, depth, scope)?;
            Ok(IStmtNode::Return(value))
        }
        SimpleHead::Throw => {
            let e = expr(alloc, words, ExprRole::Value, depth, scope)?;
            Ok(IStmtNode::Throw(e))
        }
        SimpleHead::Break => Ok(IStmtNode::Break),
        SimpleHead::Continue => Ok(IStmtNode::Continue),
        SimpleHead::Empty => Ok(IStmtNode::Empty),
    }
}

/// A call of a constructor of the superclass, after its first word.
pub fn super_call(
    alloc: Global,
    words: &mut Cursor<'_>,
    head: SuperHead,
    depth: u32,
    scope: &Scope,
) -> Result<IStmtNode, Fault>
    ensures { Reads (reader.super_by depth scope.now.locals head words.old) result words.new }
{
    match head {
        SuperHead::Constructor => {
            let constructor = words.id()?;
            let args = arguments(alloc, words, depth, scope)?;
            Ok(IStmtNode::Super(constructor, args))
        }
        SuperHead::Default => Ok(IStmtNode::SuperDefault(words.id()?)),
        SuperHead::Outside => {
            let args = exprs(alloc, words, ExprRole::Value, Bounds::Few, depth, scope)?;
            Ok(IStmtNode::SuperOutside(args))
        }
    }
}
