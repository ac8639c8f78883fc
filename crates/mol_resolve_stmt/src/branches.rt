//! `if` and what follows `else` (JLS 14.9).
ghost use Rattle.std.specs.Prelude.{◌≡◌, IfOk};
ghost use Rattle.mol_resolve_readings.specs.locals.Scoped.{locals_of};
ghost use Rattle.mol_resolve_stmt.specs.GoesOn.{GoesOn};
ghost use Rattle.mol_resolve_stmt.specs.Statements.{branches_of, else_if_of, else_reading};

use crate::parts;
use crate::stmt_reader::StmtReader;
use jav_tree::{Block, Else, Expr, Stmt, StmtNode};
use mol_base::OutOfMemory;
use mol_resolve_faults::FirstFault;
use mol_resolve_readings::{Locals, Names};
use mol_values_types::{IElse, IIf};

impl<N: Names> StmtReader<'_, N> {
    /// The branches of an `if`.
    #[cycle(read_stmt)]
    pub(crate) fn branches(
        &self,
        locals: &mut Locals,
        faults: &mut FirstFault,
        test: &Expr,
        block: &Block,
        rest: &Else,
    ) -> Result<Option<IIf>, OutOfMemory>
        ensures { IfOk result (λ value. GoesOn
            (branches_of (N.reader self.now.names.now) test.now block.now rest.now (locals_of locals.old))
            value (locals_of locals.old) (locals_of locals.new) faults.old faults.new) }
    {
        let test = self.expr(locals, faults, test)?;
        let then = self.block(locals, faults, block)?;
        let rest = self.otherwise(locals, faults, rest)?;
        Ok(parts::branches(test, then, rest))
    }

    /// What follows `else`.
    #[cycle(read_stmt)]
    fn otherwise(
        &self,
        locals: &mut Locals,
        faults: &mut FirstFault,
        rest: &Else,
    ) -> Result<Option<IElse>, OutOfMemory>
        ensures { IfOk result (λ value. GoesOn (else_reading (N.reader self.now.names.now) rest.now (locals_of locals.old))
            value (locals_of locals.old) (locals_of locals.new) faults.old faults.new) }
    {
        match rest {
            Else::None => Ok(Some(IElse::None)),
            Else::Block(block) => Ok(parts::else_of(self.block(locals, faults, block)?)),
            Else::If(statement) => self.else_if(locals, faults, statement.get()),
        }
    }

    /// A statement after `else`. Where it is no `if`, it becomes a block's only statement, though what it declares stays in scope after
    /// it; no tree that the parser makes has such a statement here.
    #[cycle(read_stmt)]
    fn else_if(
        &self,
        locals: &mut Locals,
        faults: &mut FirstFault,
        statement: &Stmt,
    ) -> Result<Option<IElse>, OutOfMemory>
        ensures { IfOk result (λ value. GoesOn (else_if_of (N.reader self.now.names.now) statement.now (locals_of locals.old))
            value (locals_of locals.old) (locals_of locals.new) faults.old faults.new) }
    {
        match &statement.node {
            StmtNode::If(test, block, rest) => {
                let branches = self.branches(locals, faults, test, block, rest)?;
                parts::else_if(self.alloc, branches)
            },
            _ => {
                let read = self.statement(locals, faults, statement)?;
                parts::else_block(self.alloc, read)
            },
        }
    }
}
