//! Blocks and statements.
ghost use Rattle.std.specs.Prelude.{◌≡◌, IfOk};
ghost use Rattle.mol_resolve_expr.specs.Parts.{alone_of};
ghost use Rattle.mol_resolve_readings.specs.locals.Scoped.{locals_of};
ghost use Rattle.mol_resolve_readings.specs.meant.Kept.{view_part};
ghost use Rattle.mol_resolve_readings.specs.reads.Reads.{Reads};
ghost use Rattle.mol_resolve_rules.specs.ReadStatements.{block_reading, read_body, read_exprs, read_initial};
ghost use Rattle.mol_resolve_stmt.specs.GoesOn.{GoesOn};
ghost use Rattle.mol_resolve_stmt.specs.Statements.{statements_of, statement_of, node_of};

use crate::loops::Loop;
use crate::parts;
use jav_tree::{Block, Expr, Stmt, StmtNode};
use mol_base::{List, OutOfMemory};
use mol_resolve_expr::ExprReader;
use mol_resolve_faults::FirstFault;
use mol_resolve_readings::{Locals, Meant, Names};
use mol_values_types::{IBlock, IBody, IExpr, IStmt, IStmtNode};
use std::alloc::Global;

/// Reads the statements of a member in source files. Each call answers the tree of a program, in which names stand for identities, or
/// `None` where some part of what it reads has no meaning; the faults of all parts are noted either way. `Err` is want of memory; of
/// `faults` nothing is said then.
#[derive(Clone, Copy)]
pub struct StmtReader<'a, N> {
    pub alloc: Global,
    pub names: &'a N,
}

impl<N: Names> StmtReader<'_, N> {
    /// The body of a method or constructor. The time is linear in its size, but for what names cost.
    pub fn body(&self, faults: &mut FirstFault, block: &Block) -> Result<Option<IBody>, OutOfMemory>
        ensures { IfOk result (λ body. Reads (read_body (N.reader self.now.names.now) block.now)
            body faults.old faults.new) }
    {
        let mut locals = Locals::new(self.alloc);
        let block = self.block(&mut locals, faults, block)?;
        Ok(parts::body_of(block))
    }

    /// The first value of a field, if it has one. Outer `None`: it has no meaning. The time is linear in its size, but for what names cost.
    pub fn initial(
        &self,
        faults: &mut FirstFault,
        init: &Option<Expr>,
    ) -> Result<Option<Option<IExpr>>, OutOfMemory>
        ensures { IfOk result (λ value. Reads (read_initial (N.reader self.now.names.now) init.now)
            value faults.old faults.new) }
    {
        let locals = Locals::new(self.alloc);
        self.maybe(&locals, faults, init)
    }

    /// An expression that stands alone.
    pub(crate) fn expr(
        &self,
        locals: &Locals,
        faults: &mut FirstFault,
        e: &Expr,
    ) -> Result<Option<Meant>, OutOfMemory>
        ensures { IfOk result (λ value. Reads (alone_of (N.reader self.now.names.now) (locals_of locals.now) e.now)
            (view_part value) faults.old faults.new) }
    {
        let reader = ExprReader {
            alloc: self.alloc,
            names: self.names,
            locals,
        };
        reader.alone(faults, e)
    }

    /// Expressions, without their static types.
    pub(crate) fn exprs(
        &self,
        locals: &Locals,
        faults: &mut FirstFault,
        items: &[Expr],
    ) -> Result<Option<List<IExpr>>, OutOfMemory>
        ensures { IfOk result (λ values. Reads (read_exprs (N.reader self.now.names.now) (locals_of locals.now) items.now)
            values faults.old faults.new) }
    {
        let reader = ExprReader {
            alloc: self.alloc,
            names: self.names,
            locals,
        };
        reader.all(faults, items)
    }

    /// A block. What is declared in it is in scope up to its end.
    #[cycle(read_stmt)]
    pub(crate) fn block(
        &self,
        locals: &mut Locals,
        faults: &mut FirstFault,
        block: &Block,
    ) -> Result<Option<IBlock>, OutOfMemory>
        ensures { IfOk result (λ value. GoesOn (block_reading (N.reader self.now.names.now) block.now (locals_of locals.old))
            value (locals_of locals.old) (locals_of locals.new) faults.old faults.new) }
    {
        let mark = locals.mark();
        let items = self.statements(locals, faults, block.items.items())?;
        locals.end_block(mark);
        parts::block_of(self.alloc, items, block.tail.items())
    }

    /// Statements, one after the other.
    #[cycle(read_stmt)]
    fn statements(
        &self,
        locals: &mut Locals,
        faults: &mut FirstFault,
        items: &[Stmt],
    ) -> Result<Option<List<IStmt>>, OutOfMemory>
        ensures { IfOk result (λ value. GoesOn (statements_of (N.reader self.now.names.now) items.now (locals_of locals.old))
            value (locals_of locals.old) (locals_of locals.new) faults.old faults.new) }
    {
        let room = List::with_capacity(self.alloc, items.len())?;
        let mut all = Some(room);
        for item in items {
            let read = self.statement(locals, faults, item)?;
            all = parts::with_item(all, read)?;
        }
        Ok(all)
    }

    /// A statement with its comments.
    #[cycle(read_stmt)]
    pub(crate) fn statement(
        &self,
        locals: &mut Locals,
        faults: &mut FirstFault,
        statement: &Stmt,
    ) -> Result<Option<IStmt>, OutOfMemory>
        ensures { IfOk result (λ value. GoesOn (statement_of (N.reader self.now.names.now) statement.now (locals_of locals.old))
            value (locals_of locals.old) (locals_of locals.new) faults.old faults.new) }
    {
        let node = self.node(locals, faults, statement.at, &statement.node)?;
        parts::with_notes(self.alloc, statement.notes.items(), node)
    }

    /// A statement without its comments.
    #[cycle(read_stmt)]
    fn node(
        &self,
        locals: &mut Locals,
        faults: &mut FirstFault,
        at: u32,
        node: &StmtNode,
    ) -> Result<Option<IStmtNode>, OutOfMemory>
        ensures { IfOk result (λ value. GoesOn (node_of (N.reader self.now.names.now) node.now at (locals_of locals.old))
            value (locals_of locals.old) (locals_of locals.new) faults.old faults.new) }
    {
        match node {
            StmtNode::Block(block) => Ok(parts::inner_block(self.block(locals, faults, block)?)),
            StmtNode::Let(declared) => self.declared(locals, faults, at, declared),
            StmtNode::Do(e) => self.action(locals, faults, e),
            StmtNode::If(test, block, rest) => {
                Ok(parts::branch(self.branches(locals, faults, test, block, rest)?))
            },
            StmtNode::While(test, block) => {
                self.looping(locals, faults, at, Loop::While(test), block)
            },
            StmtNode::For(start, test, steps, block) => {
                let kind = Loop::For(start, test, steps.items());
                self.looping(locals, faults, at, kind, block)
            },
            StmtNode::Each(is_final, ty, name, e, block) => {
                let kind = Loop::Each(*is_final, ty, name, e);
                self.looping(locals, faults, at, kind, block)
            },
            StmtNode::Return(e) => self.returned(locals, faults, e),
            StmtNode::Throw(e) => self.thrown(locals, faults, e),
            StmtNode::Break => Ok(Some(IStmtNode::Break)),
            StmtNode::Continue => Ok(Some(IStmtNode::Continue)),
            StmtNode::Empty => Ok(Some(IStmtNode::Empty)),
            StmtNode::SuperInit(args) => self.super_init(locals, faults, at, args.items()),
        }
    }
}
