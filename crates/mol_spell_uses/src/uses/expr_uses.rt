//! What the names of expressions use (JLS 15).
ghost use Rattle.std.specs.Prelude.{◌≡◌, ◌++◌, OnOk, length};
ghost use Rattle.mol_resolve_rules.specs.StaticTypes.{class_of_only_declaration};
ghost use Rattle.mol_spell_rules.specs.SpelledExpressions.{static_call_form};
ghost use Rattle.mol_spell_uses.specs.uses.Uses.{all_uses, argument_uses, created_uses, expr_uses, form_uses, type_uses};

use crate::uses::uses::Uses;
use mol_base::{Id, OutOfMemory};
use mol_spell_expr::Names;
use mol_values_types::{Argument, IExpr, IType};

/// Where expressions of a program are written. `Err` of its calls is want of memory.
#[derive(Clone, Copy)]
pub struct ExprUses<'n, N> {
    pub names: &'n N,
}

impl<N: Names> ExprUses<'_, N> {
    /// Adds what the names of an expression use, in the order in which they print. The time is linear in its size, but for what names cost.
    #[cycle(expr_uses)]
    pub fn add_expr(&self, uses: &mut Uses, e: &IExpr) -> Result<(), OutOfMemory>
        ensures { OnOk result (uses.new ≡ uses.old ++ expr_uses (N.writer self.now.names.now) (N.locals self.now.names.now) e.now) }
    {
        match e {
            IExpr::Lit(_) => Ok(()),
            IExpr::This => Ok(()),
            IExpr::Local(_) => Ok(()),
            IExpr::Param(_) => Ok(()),
            IExpr::Own(_) => Ok(()),
            IExpr::StaticField(field) => self.add_static_field(uses, field),
            IExpr::Field(_, on) => self.add_expr(uses, on.get()),
            IExpr::Call(_, args) => self.add_arguments(uses, args.items()),
            IExpr::StaticCall(method, args) => self.add_static_call(uses, method, args.items()),
            IExpr::CallOn(_, on, args) => self.add_call_on(uses, on.get(), args.items()),
            IExpr::SuperCall(_, args) => self.add_arguments(uses, args.items()),
            IExpr::New(constructor, args) => self.add_creation(uses, constructor, args.items()),
            IExpr::NewDefault(class) => self.add_class(uses, class),
            IExpr::Cond(test, a, b) => self.add_choice(uses, test.get(), a.get(), b.get()),
            IExpr::OutsideName(name) => uses.add_written(name),
            IExpr::OutsideClass(full) => self.add_import(uses, full),
            IExpr::OutsideField(_, on) => self.add_expr(uses, on.get()),
            IExpr::OutsideCall(_, args) => self.add_all(uses, args.items()),
            IExpr::OutsideCallOn(_, on, args) => self.add_outside_on(uses, on.get(), args.items()),
            IExpr::OutsideSuperCall(_, args) => self.add_all(uses, args.items()),
            IExpr::NewOutside(ty, args) => self.add_typed(uses, ty, args.items()),
            IExpr::NewArray(ty, sizes, _) => self.add_typed(uses, ty, sizes.items()),
            IExpr::ArrayLit(ty, items) => self.add_typed(uses, ty, items.items()),
            IExpr::Braces(items) => self.add_all(uses, items.items()),
            IExpr::Index(array, index) => self.add_two(uses, array.get(), index.get()),
            IExpr::Unary(_, a) => self.add_expr(uses, a.get()),
            IExpr::Post(_, a) => self.add_expr(uses, a.get()),
            IExpr::Binary(_, a, b) => self.add_two(uses, a.get(), b.get()),
            IExpr::Assign(_, a, b) => self.add_two(uses, a.get(), b.get()),
            IExpr::Cast(ty, a) => self.add_cast(uses, ty, a.get()),
            IExpr::InstanceOf(a, ty) => self.add_test(uses, a.get(), ty),
        }
    }

    /// Adds what two expressions use.
    #[cycle(expr_uses)]
    fn add_two(&self, uses: &mut Uses, first: &IExpr, second: &IExpr) -> Result<(), OutOfMemory>
        ensures { let of = expr_uses (N.writer self.now.names.now) (N.locals self.now.names.now) in
            OnOk result (uses.new ≡ uses.old ++ (of first.now ++ of second.now)) }
    {
        self.add_expr(uses, first)?;
        self.add_expr(uses, second)
    }

    /// Adds what a choice uses.
    #[cycle(expr_uses)]
    fn add_choice(
        &self,
        uses: &mut Uses,
        test: &IExpr,
        first: &IExpr,
        second: &IExpr,
    ) -> Result<(), OutOfMemory>
        ensures { let of = expr_uses (N.writer self.now.names.now) (N.locals self.now.names.now) in
            OnOk result (uses.new ≡ uses.old ++ ((of test.now ++ of first.now) ++ of second.now)) }
    {
        self.add_two(uses, test, first)?;
        self.add_expr(uses, second)
    }

    /// Adds what a cast uses.
    #[cycle(expr_uses)]
    fn add_cast(&self, uses: &mut Uses, ty: &IType, e: &IExpr) -> Result<(), OutOfMemory>
        ensures { let writer = N.writer self.now.names.now in
            let locals = N.locals self.now.names.now in
            OnOk result (uses.new ≡ uses.old ++ (type_uses writer locals ty.now ++ expr_uses writer locals e.now)) }
    {
        self.add_type(uses, ty)?;
        self.add_expr(uses, e)
    }

    /// Adds what a test uses of whether a value is of a type.
    #[cycle(expr_uses)]
    fn add_test(&self, uses: &mut Uses, e: &IExpr, ty: &IType) -> Result<(), OutOfMemory>
        ensures { let writer = N.writer self.now.names.now in
            let locals = N.locals self.now.names.now in
            OnOk result (uses.new ≡ uses.old ++ (expr_uses writer locals e.now ++ type_uses writer locals ty.now)) }
    {
        self.add_expr(uses, e)?;
        self.add_type(uses, ty)
    }

    /// Adds what a call of a method on a value uses.
    #[cycle(expr_uses)]
    fn add_call_on(&self, uses: &mut Uses, on: &IExpr, args: &[Argument]) -> Result<(), OutOfMemory>
        ensures { let writer = N.writer self.now.names.now in
            let locals = N.locals self.now.names.now in
            OnOk result (uses.new ≡ uses.old ++ (expr_uses writer locals on.now ++ argument_uses writer locals args.now)) }
    {
        self.add_expr(uses, on)?;
        self.add_arguments(uses, args)
    }

    /// Adds what a call of a method outside on a value uses.
    #[cycle(expr_uses)]
    fn add_outside_on(&self, uses: &mut Uses, on: &IExpr, args: &[IExpr]) -> Result<(), OutOfMemory>
        ensures { let writer = N.writer self.now.names.now in
            let locals = N.locals self.now.names.now in
            OnOk result (uses.new ≡ uses.old ++ (expr_uses writer locals on.now ++ all_uses writer locals args.now)) }
    {
        self.add_expr(uses, on)?;
        self.add_all(uses, args)
    }

    /// Adds what a call of a static method uses.
    #[cycle(expr_uses)]
    fn add_static_call(
        &self,
        uses: &mut Uses,
        method: &Id,
        args: &[Argument],
    ) -> Result<(), OutOfMemory>
        ensures { let writer = N.writer self.now.names.now in
            let locals = N.locals self.now.names.now in
            OnOk result (uses.new ≡ uses.old ++ (form_uses writer locals (static_call_form writer locals method.now (length args.now))
            ++ argument_uses writer locals args.now)) }
    {
        self.add_static_method(uses, method, args.len())?;
        self.add_arguments(uses, args)
    }

    /// Adds what a creation by a constructor uses.
    #[cycle(expr_uses)]
    fn add_creation(
        &self,
        uses: &mut Uses,
        constructor: &Id,
        args: &[Argument],
    ) -> Result<(), OutOfMemory>
        ensures { let writer = N.writer self.now.names.now in
            let locals = N.locals self.now.names.now in
            let class = class_of_only_declaration writer.program constructor.now in
            OnOk result (uses.new ≡ uses.old ++ (created_uses writer locals class ++ argument_uses writer locals args.now)) }
    {
        self.add_created(uses, constructor)?;
        self.add_arguments(uses, args)
    }

    /// Adds what a type and expressions use.
    #[cycle(expr_uses)]
    fn add_typed(&self, uses: &mut Uses, ty: &IType, items: &[IExpr]) -> Result<(), OutOfMemory>
        ensures { let writer = N.writer self.now.names.now in
            let locals = N.locals self.now.names.now in
            OnOk result (uses.new ≡ uses.old ++ (type_uses writer locals ty.now ++ all_uses writer locals items.now)) }
    {
        self.add_type(uses, ty)?;
        self.add_all(uses, items)
    }

    /// Adds what expressions use, one after the other.
    #[cycle(expr_uses)]
    pub fn add_all(&self, uses: &mut Uses, items: &[IExpr]) -> Result<(), OutOfMemory>
        ensures { OnOk result (uses.new ≡ uses.old ++ all_uses (N.writer self.now.names.now) (N.locals self.now.names.now) items.now) }
    {
        for item in items {
            self.add_expr(uses, item)?;
        }
        Ok(())
    }

    /// Adds what the values of arguments use, one after the other.
    #[cycle(expr_uses)]
    pub fn add_arguments(&self, uses: &mut Uses, args: &[Argument]) -> Result<(), OutOfMemory>
        ensures { OnOk result (uses.new ≡ uses.old ++ argument_uses (N.writer self.now.names.now) (N.locals self.now.names.now) args.now) }
    {
        for arg in args {
            self.add_expr(uses, &arg.value)?;
        }
        Ok(())
    }
}
