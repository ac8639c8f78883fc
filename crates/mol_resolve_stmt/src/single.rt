//! Statements that hold no others (JLS 14.8, 14.17, 14.18, 8.8.7.1).
ghost use Rattle.std.specs.Prelude.{◌≡◌, IfOk, length};
ghost use Rattle.jav_names.specs.LookUps.{super_constructor};
ghost use Rattle.mol_resolve_readings.specs.locals.Scoped.{locals_of};
ghost use Rattle.mol_resolve_readings.specs.reads.Reads.{Reads};
ghost use Rattle.mol_resolve_rules.specs.Outcomes.{beside, mapped};
ghost use Rattle.mol_resolve_rules.specs.ReadStatements.{read_exprs, read_maybe, super_if};
ghost use Rattle.mol_resolve_rules.specs.ReadTrees.{read_expr};
ghost use Rattle.mol_values_types.specs.declared.iblock.IStmtNode.TheVariants as nodes;

use crate::parts;
use crate::stmt_reader::StmtReader;
use jav_tree::Expr;
use mol_base::OutOfMemory;
use mol_resolve_faults::FirstFault;
use mol_resolve_readings::{Locals, Names};
use mol_values_types::{IExpr, IStmtNode};

impl<N: Names> StmtReader<'_, N> {
    /// An expression, if there is one, without its static type. Outer `None`: it has no meaning.
    pub(crate) fn maybe(
        &self,
        locals: &Locals,
        faults: &mut FirstFault,
        e: &Option<Expr>,
    ) -> Result<Option<Option<IExpr>>, OutOfMemory>
        ensures { IfOk result (λ value. Reads (read_maybe (N.reader self.now.names.now) (locals_of locals.now) e.now)
            value faults.old faults.new) }
    {
        match e {
            None => Ok(Some(None)),
            Some(e) => Ok(parts::present(self.expr(locals, faults, e)?)),
        }
    }

    /// An expression as a statement.
    pub(crate) fn action(
        &self,
        locals: &Locals,
        faults: &mut FirstFault,
        e: &Expr,
    ) -> Result<Option<IStmtNode>, OutOfMemory>
        ensures { IfOk result (λ node. Reads (mapped (λ e. nodes.Do e)
            (read_expr (N.reader self.now.names.now) (locals_of locals.now) e.now)) node faults.old faults.new) }
    {
        let value = self.expr(locals, faults, e)?;
        Ok(parts::action(value))
    }

    /// A value that is thrown.
    pub(crate) fn thrown(
        &self,
        locals: &Locals,
        faults: &mut FirstFault,
        e: &Expr,
    ) -> Result<Option<IStmtNode>, OutOfMemory>
        ensures { IfOk result (λ node. Reads (mapped (λ e. nodes.Throw e)
            (read_expr (N.reader self.now.names.now) (locals_of locals.now) e.now)) node faults.old faults.new) }
    {
        let value = self.expr(locals, faults, e)?;
        Ok(parts::thrown(value))
    }

    /// A value that is given back, if there is one.
    pub(crate) fn returned(
        &self,
        locals: &Locals,
        faults: &mut FirstFault,
        e: &Option<Expr>,
    ) -> Result<Option<IStmtNode>, OutOfMemory>
        ensures { IfOk result (λ node. Reads (mapped (λ e. nodes.Return e)
            (read_maybe (N.reader self.now.names.now) (locals_of locals.now) e.now)) node faults.old faults.new) }
    {
        let value = self.maybe(locals, faults, e)?;
        Ok(parts::returned(value))
    }

    /// `super(..)`. Its arguments are read first.
    pub(crate) fn super_init(
        &self,
        locals: &Locals,
        faults: &mut FirstFault,
        at: u32,
        args: &[Expr],
    ) -> Result<Option<IStmtNode>, OutOfMemory>
        ensures { let reader = N.reader self.now.names.now in
            IfOk result (λ node. Reads (beside (read_exprs reader (locals_of locals.now) args.now) (λ values.
            super_if reader reader.in_constructor at values (super_constructor reader.view reader.class (length args.now))))
            node faults.old faults.new) }
    {
        let values = self.exprs(locals, faults, args)?;
        self.names
            .super_init(self.alloc, faults, at, args.len(), values)
    }
}
