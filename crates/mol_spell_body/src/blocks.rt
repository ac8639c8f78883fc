//! Blocks and statements.
ghost use Rattle.std.specs.Prelude.{◌≡◌, IfOk};
ghost use Rattle.mol_spell_body.specs.GoesOn.{GoesOn};
ghost use Rattle.mol_spell_body.specs.Made as made;
ghost use Rattle.mol_spell_places.specs.body_places.Statements.{node_spelling, statements_spelling, stmt_spelling};
ghost use Rattle.mol_spell_places.specs.body_locals.Kept.{locals_of};
ghost use Rattle.mol_spell_rules.specs.SpelledStatements.{spelled_block};

use crate::body_writer::BodyWriter;
use crate::loops::Loop;
use jav_tree::{Block, Stmt, StmtNode};
use mol_base::{List, OutOfMemory, Text};
use mol_spell_places::{BodyLocals, Places};
use mol_values_types::{IBlock, IStmt, IStmtNode, copy_texts};
use std::alloc::Global;

impl<P: Places> BodyWriter<'_, P> {
    /// A block as it is written. What it declares is in scope up to its end. The time is linear in its size, but for what names cost.
    #[cycle(write_stmt)]
    pub fn block<'a>(
        &self,
        locals: &mut BodyLocals<'a>,
        block: &'a IBlock,
    ) -> Result<Block, OutOfMemory>
        ensures { IfOk result (λ tree. GoesOn (spelled_block (P.writer self.now.places.now) block.now) tree
            (locals_of locals.old) (locals_of locals.new)) }
    {
        let mark = locals.mark();
        let items = self.statements(locals, block.items.items())?;
        locals.end_block(mark);
        block_of(self.alloc, items, block.tail.items())
    }

    /// Statements as they are written, one after the other.
    #[cycle(write_stmt)]
    fn statements<'a>(
        &self,
        locals: &mut BodyLocals<'a>,
        items: &'a [IStmt],
    ) -> Result<List<Stmt>, OutOfMemory>
        ensures { IfOk result (λ trees. GoesOn (statements_spelling (P.writer self.now.places.now) items.now) trees
            (locals_of locals.old) (locals_of locals.new)) }
    {
        let mut trees = List::with_capacity(self.alloc, items.len())?;
        for item in items {
            let tree = self.statement(locals, item)?;
            trees.add(tree)?;
        }
        Ok(trees)
    }

    /// A statement as it is written, with its comments.
    #[cycle(write_stmt)]
    fn statement<'a>(
        &self,
        locals: &mut BodyLocals<'a>,
        statement: &'a IStmt,
    ) -> Result<Stmt, OutOfMemory>
        ensures { IfOk result (λ tree. GoesOn (stmt_spelling (P.writer self.now.places.now) statement.now) tree
            (locals_of locals.old) (locals_of locals.new)) }
    {
        let node = self.node(locals, &statement.node)?;
        with_notes(self.alloc, statement.notes.items(), node)
    }

    /// A statement as it is written, without its comments.
    #[cycle(write_stmt)]
    fn node<'a>(
        &self,
        locals: &mut BodyLocals<'a>,
        node: &'a IStmtNode,
    ) -> Result<StmtNode, OutOfMemory>
        ensures { IfOk result (λ tree. GoesOn (node_spelling (P.writer self.now.places.now) node.now) tree
            (locals_of locals.old) (locals_of locals.new)) }
    {
        match node {
            IStmtNode::Block(inner) => Ok(StmtNode::Block(self.block(locals, inner)?)),
            IStmtNode::Let(declared) => self.let_statement(locals, declared),
            IStmtNode::Do(e) => self.action(locals, e),
            IStmtNode::If(branch) => self.branches(locals, branch),
            IStmtNode::While(test, body) => self.looping(locals, Loop::While(test), body),
            IStmtNode::For(start, test, steps, body) => {
                self.looping(locals, Loop::For(start, test, steps.items()), body)
            },
            IStmtNode::Each(is_final, ty, name, e, body) => {
                self.looping(locals, Loop::Each(*is_final, ty, name, e), body)
            },
            IStmtNode::Return(e) => self.returned(locals, e),
            IStmtNode::Throw(e) => self.thrown(locals, e),
            IStmtNode::Break => Ok(StmtNode::Break),
            IStmtNode::Continue => Ok(StmtNode::Continue),
            IStmtNode::Empty => Ok(StmtNode::Empty),
            IStmtNode::Super(_constructor, args) => self.super_call(locals, args.items()),
            IStmtNode::SuperDefault(_class) => Ok(StmtNode::SuperInit(List::new(self.alloc))),
            IStmtNode::SuperOutside(args) => self.super_outside(locals, args.items()),
        }
    }
}

/// A block of its statements, with the comments before its end.
fn block_of(alloc: Global, items: List<Stmt>, tail: &[Text]) -> Result<Block, OutOfMemory>
    ensures { IfOk result (λ tree. tree ≡ made.block tail.now items) }
{
    let tail = copy_texts(alloc, tail)?;
    Ok(Block { items, tail })
}

/// A statement with the comments before it.
fn with_notes(alloc: Global, notes: &[Text], node: StmtNode) -> Result<Stmt, OutOfMemory>
    ensures { IfOk result (λ tree. tree ≡ made.statement notes.now node) }
{
    let notes = copy_texts(alloc, notes)?;
    Ok(Stmt { notes, at: 0, node })
}
