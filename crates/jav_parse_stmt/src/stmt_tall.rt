//! Statements with their heights.
ghost use Rattle.std.specs.Prelude.{◌≡◌, ◌<◌, ◌++◌, ◌^◌, IfOk};
ghost use Rattle.jav_parse_stmt.specs.StmtRules as spec;

use jav_parse_cursor::limits::Limits;
use jav_tree::{Block, Stmt, StmtNode};
use mol_base::{Boxed, List, OutOfMemory, Text};

/// A statement without the comments before it, its height, whether it ends in an `if` without `else`, and
/// the comments that were read after it: none where it does not.
#[derive(Drop)]
pub struct TallStmt {
    pub at: u32,
    pub node: Boxed<StmtNode>,
    pub height: usize,
    pub is_open: bool,
    pub after: List<Text>,
}

/// A block, or a branch or loop body as its block, and the same of it.
#[derive(Drop)]
pub struct TallBlock {
    pub items: List<Stmt>,
    pub tail: List<Text>,
    pub height: usize,
    pub is_open: bool,
    pub after: List<Text>,
}

/// A statement that ends in no `if` without `else`.
pub fn closed(
    limits: Limits,
    at: u32,
    node: StmtNode,
    height: usize,
) -> Result<TallStmt, OutOfMemory>
    ensures { IfOk result (λ y. y ≡ spec.closed at node height) }
{
    Ok(TallStmt {
        at,
        node: Boxed::new(limits.alloc, node)?,
        height,
        is_open: false,
        after: List::new(limits.alloc),
    })
}

/// The texts of both lists.
pub fn appended(front: List<Text>, back: List<Text>) -> Result<List<Text>, OutOfMemory>
    ensures { IfOk result (λ all. all ≡ front ++ back) }
{
    let mut all = front;
    for text in back.into_vec() {
        all.add(text)?;
    }
    Ok(all)
}

/// A branch that is this statement alone, with comments before it.
pub fn wrapped(limits: Limits, notes: List<Text>, stmt: TallStmt) -> Result<TallBlock, OutOfMemory>
    requires { stmt.height < 2 ^ 63 }
    ensures { IfOk result (λ b. b ≡ spec.wrapped notes stmt) }
{
    let mut items = List::new(limits.alloc);
    items.add(Stmt {
        notes,
        at: stmt.at,
        node: stmt.node.into_inner(),
    })?;
    Ok(TallBlock {
        items,
        tail: List::new(limits.alloc),
        height: stmt.height + 1,
        is_open: stmt.is_open,
        after: stmt.after,
    })
}
