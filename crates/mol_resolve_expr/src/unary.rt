//! Expressions over one operand (JLS 15.14 to 15.16, 15.20.2).
ghost use Rattle.std.specs.Prelude.{◌≡◌, ℕ, IfOk, Option};
ghost use Rattle.jav_tree.specs.declared.expr.ExprNode.TheOpen.{ExprNode-F};
ghost use Rattle.mol_resolve_expr.specs.Parts.{node_of, over_operand};
ghost use Rattle.mol_resolve_readings.specs.locals.Scoped.{locals_of};
ghost use Rattle.mol_resolve_readings.specs.meant.Kept.{view_part};
ghost use Rattle.mol_resolve_readings.specs.reads.Reads.{Reads};
ghost use Rattle.mol_resolve_rules.specs.Outcomes.{TreeFault};
ghost use Rattle.mol_resolve_rules.specs.ReadTrees.{Reading, alone, reading};

use crate::expr_reader::ExprReader;
use crate::stand::Stand;
use jav_tree::{Expr, TypeName};
use mol_base::{OutOfMemory, Text};
use mol_resolve_faults::FirstFault;
use mol_resolve_readings::meant::operators;
use mol_resolve_readings::{Meant, Names};

/// What stands over one operand.
#[derive(Clone, Copy)]
pub(crate) enum Unary<'a> {
    /// An operator before it.
    Prefix(&'a Text),
    /// An operator after it.
    Postfix(&'a Text),
    /// A cast to a type.
    Cast(&'a TypeName),
    /// A test of whether it is of a type.
    InstanceOf(&'a TypeName),
}

impl<N: Names> ExprReader<'_, N> {
    /// An expression over one operand.
    #[cycle(read_expr)]
    pub(crate) fn unary(
        &self,
        faults: &mut FirstFault,
        at: u32,
        kind: Unary<'_>,
        operand: &Expr,
    ) -> Result<Option<Meant>, OutOfMemory>
        ensures { let reader = N.reader self.now.names.now in
            IfOk result (λ value. Reads
            (node_of reader (locals_of self.now.locals.now) (over_operand kind.entry (reading reader operand.now)) at)
            (view_part value) faults.old faults.new) }
    {
        let operand = self.value(faults, operand, Stand::Alone)?;
        self.over_operand(faults, at, kind, operand)
    }

    /// What stands over an operand, once that is read.
    fn over_operand(
        &self,
        faults: &mut FirstFault,
        at: u32,
        kind: Unary<'_>,
        operand: Option<Meant>,
    ) -> Result<Option<Meant>, OutOfMemory>
        ensures { let reader = N.reader self.now.names.now in
            let locals = locals_of self.now.locals.now in
            IfOk result (λ value. (part : Reading ℕ) (first : Option TreeFault)
            → Reads (alone reader locals part) (view_part operand) first faults.old
            → Reads (node_of reader locals (over_operand kind.entry part) at) (view_part value) first faults.new) }
    {
        match kind {
            Unary::Prefix(op) => operators::unary(self.alloc, op, operand),
            Unary::Postfix(op) => operators::post(self.alloc, op, operand),
            Unary::Cast(ty) => self.cast(faults, at, ty, operand),
            Unary::InstanceOf(ty) => self.instance_of(faults, at, ty, operand),
        }
    }

    /// A cast.
    fn cast(
        &self,
        faults: &mut FirstFault,
        at: u32,
        ty: &TypeName,
        operand: Option<Meant>,
    ) -> Result<Option<Meant>, OutOfMemory>
        ensures { let reader = N.reader self.now.names.now in
            let locals = locals_of self.now.locals.now in
            IfOk result (λ value. (part : Reading ℕ) (first : Option TreeFault)
            → Reads (alone reader locals part) (view_part operand) first faults.old
            → Reads (node_of reader locals (ExprNode-F.Cast ty.now part) at) (view_part value) first faults.new) }
    {
        let ty = self.names.read_type(self.alloc, faults, at, ty)?;
        operators::cast(self.alloc, ty, operand)
    }

    /// A test of whether a value is of a type.
    fn instance_of(
        &self,
        faults: &mut FirstFault,
        at: u32,
        ty: &TypeName,
        operand: Option<Meant>,
    ) -> Result<Option<Meant>, OutOfMemory>
        ensures { let reader = N.reader self.now.names.now in
            let locals = locals_of self.now.locals.now in
            IfOk result (λ value. (part : Reading ℕ) (first : Option TreeFault)
            → Reads (alone reader locals part) (view_part operand) first faults.old
            → Reads (node_of reader locals (ExprNode-F.InstanceOf part ty.now) at) (view_part value) first faults.new) }
    {
        let ty = self.names.read_type(self.alloc, faults, at, ty)?;
        operators::instance_of(self.alloc, operand, ty)
    }
}
