//! The names of expressions (JLS 15), and the static types of their values, each from its parts.
ghost use Rattle.std.specs.Prelude.{◌≡◌, IfOk, None, OnOk};
ghost use Rattle.mol_faults_expr.specs.Noted.{IsRead, noted_after};
ghost use Rattle.mol_faults_expr.specs.Places.{AreReadAt};
ghost use Rattle.mol_faults_expr.specs.References.{all_references, argument_references, expr_references, static_type};

use crate::expr_reader::ExprReader;
use crate::misreads::Misreads;
use mol_base::OutOfMemory;
use mol_scope::StaticType;
use mol_spell_expr::Names;
use mol_values_types::{Argument, IExpr};

impl<'a: 'n, 'n, N: Names> ExprReader<'a, 'n, N> {
    /// Notes the names of an expression that stands alone, in the order in which they print. The time is linear in its size, but for what
    /// names cost.
    #[cycle(expr_misreads)]
    pub fn note_expr(&self, misreads: &mut Misreads, e: &'a IExpr) -> Result<(), OutOfMemory>
        requires { AreReadAt (N.writer self.now.names.now) (N.locals self.now.names.now) self.now.place self.now.locals.now }
        ensures { let writer = N.writer self.now.names.now in
            let locals = N.locals self.now.names.now in
            OnOk result (misreads.new ≡ noted_after writer misreads.old (expr_references writer locals e.now)) }
    {
        match self.expr(misreads, e) {
            Ok(_) => Ok(()),
            Err(error) => Err(error),
        }
    }

    /// Notes the names of an expression that stands alone; the answer is the static type of its value.
    #[cycle(expr_misreads)]
    pub(crate) fn expr(
        &self,
        misreads: &mut Misreads,
        e: &'a IExpr,
    ) -> Result<StaticType<'a>, OutOfMemory>
        requires { AreReadAt (N.writer self.now.names.now) (N.locals self.now.names.now) self.now.place self.now.locals.now }
        ensures { let writer = N.writer self.now.names.now in
            let locals = N.locals self.now.names.now in
            IfOk result (λ kept. IsRead writer misreads.old misreads.new (expr_references writer locals e.now)
            (static_type writer locals e.now) kept) }
    {
        match e {
            IExpr::Lit(text) => Ok(StaticType::of_literal(text)),
            IExpr::This => Ok(StaticType::Class(self.place.variables.class)),
            IExpr::Local(number) => self.local(misreads, *number, None),
            IExpr::Param(id) => self.param(misreads, id, None),
            IExpr::Own(field) => self.own_field(misreads, field, None),
            IExpr::StaticField(field) => self.static_field(misreads, field, None),
            IExpr::Field(field, on) => self.field_alone(misreads, field, on.get()),
            IExpr::Call(method, args) => self.own_call(misreads, method, args.items()),
            IExpr::StaticCall(method, args) => self.static_call(misreads, method, args.items()),
            IExpr::CallOn(method, on, args) => {
                self.call_on(misreads, method, on.get(), args.items())
            },
            IExpr::SuperCall(method, args) => self.super_call(misreads, method, args.items()),
            IExpr::New(constructor, args) => self.creation(misreads, constructor, args.items()),
            IExpr::NewDefault(class) => self.default_creation(misreads, class),
            IExpr::Cond(test, a, b) => self.choice(misreads, test.get(), a.get(), b.get()),
            IExpr::OutsideName(name) => self.outside_name(misreads, name, None),
            IExpr::OutsideClass(full) => self.outside_class(misreads, full),
            IExpr::OutsideField(name, on) => self.outside_field_alone(misreads, name, on.get()),
            IExpr::OutsideCall(name, args) => self.outside_call(misreads, name, args.items()),
            IExpr::OutsideCallOn(name, on, args) => {
                self.outside_call_on(misreads, name, on.get(), args.items())
            },
            IExpr::OutsideSuperCall(name, args) => {
                self.outside_super_call(misreads, name, args.items())
            },
            IExpr::NewOutside(ty, args) => self.outside_creation(misreads, ty, args.items()),
            IExpr::NewArray(ty, sizes, pairs) => {
                self.new_array(misreads, ty, sizes.items(), *pairs)
            },
            IExpr::ArrayLit(ty, items) => self.array_of(misreads, ty, items.items()),
            IExpr::Braces(items) => self.braces(misreads, items.items()),
            IExpr::Index(array, index) => self.index(misreads, array.get(), index.get()),
            IExpr::Unary(op, a) => self.unary(misreads, op, a.get()),
            IExpr::Post(_, a) => self.expr(misreads, a.get()),
            IExpr::Binary(op, a, b) => self.binary(misreads, op, a.get(), b.get()),
            IExpr::Assign(_, a, b) => self.assignment(misreads, a.get(), b.get()),
            IExpr::Cast(ty, a) => self.cast(misreads, ty, a.get()),
            IExpr::InstanceOf(a, ty) => self.test(misreads, a.get(), ty),
        }
    }

    /// Notes the names of expressions that stand alone, one after the other.
    #[cycle(expr_misreads)]
    pub(crate) fn all(&self, misreads: &mut Misreads, items: &'a [IExpr]) -> Result<(), OutOfMemory>
        requires { AreReadAt (N.writer self.now.names.now) (N.locals self.now.names.now) self.now.place self.now.locals.now }
        ensures { let writer = N.writer self.now.names.now in
            let locals = N.locals self.now.names.now in
            OnOk result (misreads.new ≡ noted_after writer misreads.old (all_references writer locals items.now)) }
    {
        for item in items {
            self.note_expr(misreads, item)?;
        }
        Ok(())
    }

    /// Notes the names of the values of arguments, one after the other.
    #[cycle(expr_misreads)]
    pub(crate) fn arguments(
        &self,
        misreads: &mut Misreads,
        args: &'a [Argument],
    ) -> Result<(), OutOfMemory>
        requires { AreReadAt (N.writer self.now.names.now) (N.locals self.now.names.now) self.now.place self.now.locals.now }
        ensures { let writer = N.writer self.now.names.now in
            let locals = N.locals self.now.names.now in
            OnOk result (misreads.new ≡ noted_after writer misreads.old (argument_references writer locals args.now)) }
    {
        for arg in args {
            self.note_expr(misreads, &arg.value)?;
        }
        Ok(())
    }
}
