//! Calls (JLS 15.12) with their arguments.
ghost use Rattle.std.specs.Prelude.{◌≡◌, IfOk, OnOk, length};
ghost use Rattle.jav_names.specs.OnValues.{outside_value};
ghost use Rattle.jav_names.specs.StaticTypes.{outside_call};
ghost use Rattle.mol_faults_expr.specs.Noted.{IsRead, noted_after};
ghost use Rattle.mol_faults_expr.specs.Places.{AreReadAt};
ghost use Rattle.mol_faults_expr.specs.References.{call_on_references, outside_call_on_references, outside_call_references, outside_super_references, own_call_references, received_references, static_call_references, static_type, super_call_references};
ghost use Rattle.mol_resolve_rules.specs.StaticTypes.{result_value};

use crate::expr_reader::ExprReader;
use crate::misreads::Misreads;
use crate::values::result_value;
use mol_base::{Id, OutOfMemory, Text};
use mol_scope::StaticType;
use mol_spell_expr::Names;
use mol_values_types::{Argument, IExpr};

impl<'a: 'n, 'n, N: Names> ExprReader<'a, 'n, N> {
    /// Reads a call of a method of `this`.
    #[cycle(expr_misreads)]
    pub(crate) fn own_call(
        &self,
        misreads: &mut Misreads,
        method: &'a Id,
        args: &'a [Argument],
    ) -> Result<StaticType<'a>, OutOfMemory>
        requires { AreReadAt (N.writer self.now.names.now) (N.locals self.now.names.now) self.now.place self.now.locals.now }
        ensures { let writer = N.writer self.now.names.now in
            let locals = N.locals self.now.names.now in
            IfOk result (λ kept. IsRead writer misreads.old misreads.new (own_call_references writer locals method.now args.now)
            (result_value writer.program method.now) kept) }
    {
        self.note_own_method(misreads, method, args.len())?;
        self.arguments(misreads, args)?;
        Ok(result_value(self.table(), method))
    }

    /// Reads a call of a static method.
    #[cycle(expr_misreads)]
    pub(crate) fn static_call(
        &self,
        misreads: &mut Misreads,
        method: &'a Id,
        args: &'a [Argument],
    ) -> Result<StaticType<'a>, OutOfMemory>
        requires { AreReadAt (N.writer self.now.names.now) (N.locals self.now.names.now) self.now.place self.now.locals.now }
        ensures { let writer = N.writer self.now.names.now in
            let locals = N.locals self.now.names.now in
            IfOk result (λ kept. IsRead writer misreads.old misreads.new (static_call_references writer locals method.now args.now)
            (result_value writer.program method.now) kept) }
    {
        self.note_static_method(misreads, method, args.len())?;
        self.arguments(misreads, args)?;
        Ok(result_value(self.table(), method))
    }

    /// Reads a call of a method on what an expression gives.
    #[cycle(expr_misreads)]
    pub(crate) fn call_on(
        &self,
        misreads: &mut Misreads,
        method: &'a Id,
        on: &'a IExpr,
        args: &'a [Argument],
    ) -> Result<StaticType<'a>, OutOfMemory>
        requires { AreReadAt (N.writer self.now.names.now) (N.locals self.now.names.now) self.now.place self.now.locals.now }
        ensures { let writer = N.writer self.now.names.now in
            let locals = N.locals self.now.names.now in
            IfOk result (λ kept. IsRead writer misreads.old misreads.new (call_on_references writer locals method.now on.now args.now)
            (result_value writer.program method.now) kept) }
    {
        self.received(misreads, method, on, args.len())?;
        self.arguments(misreads, args)?;
        Ok(result_value(self.table(), method))
    }

    /// Reads what a method is called on, and notes the name of the method, with so many arguments.
    #[cycle(expr_misreads)]
    fn received(
        &self,
        misreads: &mut Misreads,
        method: &'a Id,
        on: &'a IExpr,
        arity: usize,
    ) -> Result<(), OutOfMemory>
        requires { AreReadAt (N.writer self.now.names.now) (N.locals self.now.names.now) self.now.place self.now.locals.now }
        ensures { let writer = N.writer self.now.names.now in
            let locals = N.locals self.now.names.now in
            OnOk result (misreads.new ≡ noted_after writer misreads.old (received_references writer locals method.now on.now arity)) }
    {
        match on {
            IExpr::This => self.note_own_method(misreads, method, arity),
            _ => {
                let Ok(ty) = self.receiver(misreads, on) else {
                    return Err(OutOfMemory);
                };
                self.note_method_on(misreads, &ty, method, arity)
            },
        }
    }

    /// Reads a call of a method after `super.`.
    #[cycle(expr_misreads)]
    pub(crate) fn super_call(
        &self,
        misreads: &mut Misreads,
        method: &'a Id,
        args: &'a [Argument],
    ) -> Result<StaticType<'a>, OutOfMemory>
        requires { AreReadAt (N.writer self.now.names.now) (N.locals self.now.names.now) self.now.place self.now.locals.now }
        ensures { let writer = N.writer self.now.names.now in
            let locals = N.locals self.now.names.now in
            IfOk result (λ kept. IsRead writer misreads.old misreads.new (super_call_references writer locals method.now args.now)
            (result_value writer.program method.now) kept) }
    {
        self.note_super_method(misreads, method, args.len())?;
        self.arguments(misreads, args)?;
        Ok(result_value(self.table(), method))
    }

    /// Reads a call of a method outside.
    #[cycle(expr_misreads)]
    pub(crate) fn outside_call(
        &self,
        misreads: &mut Misreads,
        name: &'a Text,
        args: &'a [IExpr],
    ) -> Result<StaticType<'a>, OutOfMemory>
        requires { AreReadAt (N.writer self.now.names.now) (N.locals self.now.names.now) self.now.place self.now.locals.now }
        ensures { let writer = N.writer self.now.names.now in
            let locals = N.locals self.now.names.now in
            IfOk result (λ kept. IsRead writer misreads.old misreads.new (outside_call_references writer locals name.now args.now)
            outside_value kept) }
    {
        self.note_outside_call(misreads, name, args.len())?;
        self.all(misreads, args)?;
        Ok(StaticType::Outside)
    }

    /// Reads a call of a method outside on what an expression gives.
    #[cycle(expr_misreads)]
    pub(crate) fn outside_call_on(
        &self,
        misreads: &mut Misreads,
        name: &'a Text,
        on: &'a IExpr,
        args: &'a [IExpr],
    ) -> Result<StaticType<'a>, OutOfMemory>
        requires { AreReadAt (N.writer self.now.names.now) (N.locals self.now.names.now) self.now.place self.now.locals.now }
        ensures { let writer = N.writer self.now.names.now in
            let locals = N.locals self.now.names.now in
            IfOk result (λ kept. IsRead writer misreads.old misreads.new (outside_call_on_references writer locals name.now on.now args.now)
            (outside_call (static_type writer locals on.now) name.now (length args.now)) kept) }
    {
        let Ok(ty) = self.receiver(misreads, on) else {
            return Err(OutOfMemory);
        };
        self.note_outside_on(misreads, &ty, name, args.len())?;
        self.all(misreads, args)?;
        Ok(ty.outside_call(name, args.len()))
    }

    /// Reads a call of a method outside after `super.`.
    #[cycle(expr_misreads)]
    pub(crate) fn outside_super_call(
        &self,
        misreads: &mut Misreads,
        name: &'a Text,
        args: &'a [IExpr],
    ) -> Result<StaticType<'a>, OutOfMemory>
        requires { AreReadAt (N.writer self.now.names.now) (N.locals self.now.names.now) self.now.place self.now.locals.now }
        ensures { let writer = N.writer self.now.names.now in
            let locals = N.locals self.now.names.now in
            IfOk result (λ kept. IsRead writer misreads.old misreads.new (outside_super_references writer locals name.now args.now)
            outside_value kept) }
    {
        self.note_outside_super(misreads, name, args.len())?;
        self.all(misreads, args)?;
        Ok(StaticType::Outside)
    }
}
