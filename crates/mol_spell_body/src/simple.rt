//! Statements that hold no others (JLS 14.8, 14.17, 14.18, 8.8.7.1).
ghost use Rattle.std.specs.Prelude.{◌≡◌, IfOk, map, option_map};
ghost use Rattle.jav_tree.specs.declared.stmt.StmtNode.TheVariants as node;
ghost use Rattle.mol_spell_places.specs.body_locals.Kept.{locals_of};
ghost use Rattle.mol_spell_expr.specs.Parts.{argument_tree, tree_of};

use crate::body_writer::BodyWriter;
use jav_tree::StmtNode;
use mol_base::OutOfMemory;
use mol_spell_places::{BodyLocals, Places};
use mol_values_types::{Argument, IExpr};

impl<P: Places> BodyWriter<'_, P> {
    /// An expression as a statement.
    pub(crate) fn action(&self, locals: &BodyLocals<'_>, e: &IExpr) -> Result<StmtNode, OutOfMemory>
        ensures { IfOk result (λ tree. tree ≡ node.Do (tree_of (P.writer self.now.places.now) (locals_of locals.now) e.now)) }
    {
        let e = self.expr(locals, e)?;
        Ok(StmtNode::Do(e))
    }

    /// A value that is thrown.
    pub(crate) fn thrown(&self, locals: &BodyLocals<'_>, e: &IExpr) -> Result<StmtNode, OutOfMemory>
        ensures { IfOk result (λ tree. tree ≡ node.Throw (tree_of (P.writer self.now.places.now) (locals_of locals.now) e.now)) }
    {
        let e = self.expr(locals, e)?;
        Ok(StmtNode::Throw(e))
    }

    /// A value that is given back, if there is one.
    pub(crate) fn returned(
        &self,
        locals: &BodyLocals<'_>,
        e: &Option<IExpr>,
    ) -> Result<StmtNode, OutOfMemory>
        ensures { IfOk result (λ tree. tree
            ≡ node.Return (option_map (tree_of (P.writer self.now.places.now) (locals_of locals.now)) e.now)) }
    {
        let e = self.maybe_expr(locals, e)?;
        Ok(StmtNode::Return(e))
    }

    /// `super(..)` of a class of the program.
    pub(crate) fn super_call(
        &self,
        locals: &BodyLocals<'_>,
        args: &[Argument],
    ) -> Result<StmtNode, OutOfMemory>
        ensures { IfOk result (λ tree. tree
            ≡ node.SuperInit (map (argument_tree (P.writer self.now.places.now) (locals_of locals.now)) args.now)) }
    {
        let args = self.arguments(locals, args)?;
        Ok(StmtNode::SuperInit(args))
    }

    /// `super(..)` of a class outside.
    pub(crate) fn super_outside(
        &self,
        locals: &BodyLocals<'_>,
        args: &[IExpr],
    ) -> Result<StmtNode, OutOfMemory>
        ensures { IfOk result (λ tree. tree
            ≡ node.SuperInit (map (tree_of (P.writer self.now.places.now) (locals_of locals.now)) args.now)) }
    {
        let args = self.exprs(locals, args)?;
        Ok(StmtNode::SuperInit(args))
    }
}
