//! Operators and other expressions over operands (JLS 15.10.3, 15.14 to 15.26).
ghost use Rattle.std.specs.Prelude.{◌≡◌, ◌++◌, ◌∷◌, IfOk};
ghost use Rattle.jav_names.specs.OnValues.{primitive_value};
ghost use Rattle.jav_names.specs.StaticTypes.{common, item, of_type};
ghost use Rattle.mol_base.specs.Operators.{is_step};
ghost use Rattle.mol_faults_expr.specs.Names.{index_reference};
ghost use Rattle.mol_faults_expr.specs.Noted.{IsRead};
ghost use Rattle.mol_faults_expr.specs.Places.{AreReadAt};
ghost use Rattle.mol_faults_expr.specs.References.{expr_references, static_type, type_references};
ghost use Rattle.mol_resolve_rules.specs.ProgramViews.{program_view, seen};
ghost use Rattle.mol_resolve_rules.specs.ReadTrees.{binary_type, unary_type};
ghost use Rattle.mol_scope.specs.types.Kept.{view_value};
ghost use Rattle.mol_spell_expr.specs.declared.type_place.TypePlace.TheVariants as places;

use crate::expr_reader::ExprReader;
use crate::misreads::Misreads;
use crate::reads::index_reads;
use mol_base::{OutOfMemory, Text, is_step};
use mol_scope::{StaticType, Target, common};
use mol_spell_expr::{Names, TypePlace};
use mol_values_types::{IExpr, IType};

impl<'a: 'n, 'n, N: Names> ExprReader<'a, 'n, N> {
    /// Reads a choice between two values.
    #[cycle(expr_misreads)]
    pub(crate) fn choice(
        &self,
        misreads: &mut Misreads,
        test: &'a IExpr,
        first: &'a IExpr,
        second: &'a IExpr,
    ) -> Result<StaticType<'a>, OutOfMemory>
        requires { AreReadAt (N.writer self.now.names.now) (N.locals self.now.names.now) self.now.place self.now.locals.now }
        ensures { let writer = N.writer self.now.names.now in
            let locals = N.locals self.now.names.now in
            let of = expr_references writer locals in
            IfOk result (λ kept. IsRead writer misreads.old misreads.new (of test.now ++ of first.now ++ of second.now)
            (common (program_view writer.program) (static_type writer locals first.now) (static_type writer locals second.now)) kept) }
    {
        self.note_expr(misreads, test)?;
        let Ok(first) = self.expr(misreads, first) else {
            return Err(OutOfMemory);
        };
        let Ok(second) = self.expr(misreads, second) else {
            return Err(OutOfMemory);
        };
        common(self.alloc, self.place.variables.members, &first, &second)
    }

    /// Reads an item of an array.
    #[cycle(expr_misreads)]
    pub(crate) fn index(
        &self,
        misreads: &mut Misreads,
        array: &'a IExpr,
        index: &'a IExpr,
    ) -> Result<StaticType<'a>, OutOfMemory>
        requires { AreReadAt (N.writer self.now.names.now) (N.locals self.now.names.now) self.now.place self.now.locals.now }
        ensures { let writer = N.writer self.now.names.now in
            let locals = N.locals self.now.names.now in
            let of = expr_references writer locals in
            IfOk result (λ kept. IsRead writer misreads.old misreads.new
            (of array.now ++ index_reference writer locals (static_type writer locals array.now) ∷ of index.now)
            (item (static_type writer locals array.now)) kept) }
    {
        let Ok(ty) = self.expr(misreads, array) else {
            return Err(OutOfMemory);
        };
        let target = Target::Outside("[]");
        let reads = index_reads(&self.place, &target, &ty);
        self.note(misreads, &target, reads)?;
        self.note_expr(misreads, index)?;
        Ok(ty.item())
    }

    /// Reads a prefix operator and its operand.
    #[cycle(expr_misreads)]
    pub(crate) fn unary(
        &self,
        misreads: &mut Misreads,
        op: &'a Text,
        operand: &'a IExpr,
    ) -> Result<StaticType<'a>, OutOfMemory>
        requires { AreReadAt (N.writer self.now.names.now) (N.locals self.now.names.now) self.now.place self.now.locals.now }
        ensures { let writer = N.writer self.now.names.now in
            let locals = N.locals self.now.names.now in
            let of = expr_references writer locals in
            IfOk result (λ kept. IsRead writer misreads.old misreads.new (of operand.now)
            (unary_type op.now (static_type writer locals operand.now)) kept) }
    {
        let Ok(ty) = self.expr(misreads, operand) else {
            return Err(OutOfMemory);
        };
        if steps(op) {
            return Ok(ty);
        }
        Ok(StaticType::Primitive)
    }

    /// Reads an operator between two operands.
    #[cycle(expr_misreads)]
    pub(crate) fn binary(
        &self,
        misreads: &mut Misreads,
        op: &'a Text,
        left: &'a IExpr,
        right: &'a IExpr,
    ) -> Result<StaticType<'a>, OutOfMemory>
        requires { AreReadAt (N.writer self.now.names.now) (N.locals self.now.names.now) self.now.place self.now.locals.now }
        ensures { let writer = N.writer self.now.names.now in
            let locals = N.locals self.now.names.now in
            let of = expr_references writer locals in
            IfOk result (λ kept. IsRead writer misreads.old misreads.new (of left.now ++ of right.now) (binary_type op.now) kept) }
    {
        self.note_expr(misreads, left)?;
        self.note_expr(misreads, right)?;
        Ok(binary_type(op))
    }

    /// Reads an assignment.
    #[cycle(expr_misreads)]
    pub(crate) fn assignment(
        &self,
        misreads: &mut Misreads,
        left: &'a IExpr,
        right: &'a IExpr,
    ) -> Result<StaticType<'a>, OutOfMemory>
        requires { AreReadAt (N.writer self.now.names.now) (N.locals self.now.names.now) self.now.place self.now.locals.now }
        ensures { let writer = N.writer self.now.names.now in
            let locals = N.locals self.now.names.now in
            let of = expr_references writer locals in
            IfOk result (λ kept. IsRead writer misreads.old misreads.new (of left.now ++ of right.now)
            (static_type writer locals left.now) kept) }
    {
        let Ok(ty) = self.expr(misreads, left) else {
            return Err(OutOfMemory);
        };
        self.note_expr(misreads, right)?;
        Ok(ty)
    }

    /// Reads a cast.
    #[cycle(expr_misreads)]
    pub(crate) fn cast(
        &self,
        misreads: &mut Misreads,
        ty: &'a IType,
        operand: &'a IExpr,
    ) -> Result<StaticType<'a>, OutOfMemory>
        requires { AreReadAt (N.writer self.now.names.now) (N.locals self.now.names.now) self.now.place self.now.locals.now }
        ensures { let writer = N.writer self.now.names.now in
            let locals = N.locals self.now.names.now in
            let of = expr_references writer locals in
            IfOk result (λ kept. IsRead writer misreads.old misreads.new
            (type_references writer locals places.Expression ty.now ++ of operand.now)
            (of_type (seen ty.now)) kept) }
    {
        self.note_type(misreads, TypePlace::Expression, ty)?;
        self.note_expr(misreads, operand)?;
        Ok(StaticType::of_type(ty))
    }

    /// Reads a test of whether a value is of a type.
    #[cycle(expr_misreads)]
    pub(crate) fn test(
        &self,
        misreads: &mut Misreads,
        operand: &'a IExpr,
        ty: &'a IType,
    ) -> Result<StaticType<'a>, OutOfMemory>
        requires { AreReadAt (N.writer self.now.names.now) (N.locals self.now.names.now) self.now.place self.now.locals.now }
        ensures { let writer = N.writer self.now.names.now in
            let locals = N.locals self.now.names.now in
            let of = expr_references writer locals in
            IfOk result (λ kept. IsRead writer misreads.old misreads.new
            (of operand.now ++ type_references writer locals places.Expression ty.now)
            primitive_value kept) }
    {
        self.note_expr(misreads, operand)?;
        self.note_type(misreads, TypePlace::Expression, ty)?;
        Ok(StaticType::Primitive)
    }
}

/// Whether this is `++` or `--`, which have the type of what they step.
fn steps(op: &Text) -> bool
    ensures { result ≡ is_step op.now }
{
    is_step(op.bytes())
}

/// The static type of what has an operator between two operands: `+` may join strings, which are outside, the others are primitive.
fn binary_type<'a>(op: &Text) -> StaticType<'a>
    ensures { view_value result ≡ binary_type op.now }
{
    if op.bytes() == b"+".as_slice() {
        StaticType::Outside
    } else {
        StaticType::Primitive
    }
}
