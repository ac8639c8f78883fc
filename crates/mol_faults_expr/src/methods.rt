//! Methods by their simple names, after `this`, `super` or the name of their class, and of values (JLS 15.12).
ghost use Rattle.std.specs.Prelude.{◌≡◌, OnOk};
ghost use Rattle.mol_faults_expr.specs.Names.{method_on_reference, outside_call_reference, outside_on_reference, outside_super_reference, super_reference};
ghost use Rattle.mol_faults_expr.specs.Noted.{note};
ghost use Rattle.mol_faults_expr.specs.Places.{AreReadAt};
ghost use Rattle.mol_spell_rules.specs.SpelledExpressions.{by_name, call_form, call_reference, on_class, static_call_form};
ghost use Rattle.mol_scope.specs.types.Kept.{view_value};

use crate::expr_reader::ExprReader;
use crate::misreads::Misreads;
use crate::paths::static_method_reads;
use crate::reads::{call_reads, method_reads, super_method_reads};
use mol_base::{Id, OutOfMemory, Text, number_of};
use mol_scope::{StaticType, Target};
use mol_spell_expr::{Importable, Names, TypePlace};

impl<N: Names> ExprReader<'_, '_, N> {
    /// Notes the name of a method of `this`, with so many arguments.
    pub(crate) fn note_own_method(
        &self,
        misreads: &mut Misreads,
        method: &Id,
        arity: usize,
    ) -> Result<(), OutOfMemory>
        requires { AreReadAt (N.writer self.now.names.now) (N.locals self.now.names.now) self.now.place self.now.locals.now }
        ensures { let writer = N.writer self.now.names.now in
            let locals = N.locals self.now.names.now in
            OnOk result (misreads.new
            ≡ note writer misreads.old (call_reference writer locals (call_form writer locals method.now arity) method.now arity)) }
    {
        let count = number_of(arity)?;
        if self.names.reads_method(method, count) {
            return misreads.add_read();
        }
        let ty = StaticType::Class(self.place.variables.class);
        self.note_method_on(misreads, &ty, method, arity)
    }

    /// Notes the name of a static method, with so many arguments.
    pub(crate) fn note_static_method(
        &self,
        misreads: &mut Misreads,
        method: &Id,
        arity: usize,
    ) -> Result<(), OutOfMemory>
        requires { AreReadAt (N.writer self.now.names.now) (N.locals self.now.names.now) self.now.place self.now.locals.now }
        ensures { let writer = N.writer self.now.names.now in
            let locals = N.locals self.now.names.now in
            OnOk result (misreads.new
            ≡ note writer misreads.old (call_reference writer locals (static_call_form writer locals method.now arity) method.now arity)) }
    {
        let count = number_of(arity)?;
        if self.names.reads_method(method, count) {
            return misreads.add_read();
        }
        match self.names.declaring_class(method) {
            Some(class) => self.note_method_of(misreads, &class, method, count),
            None => self.note_simply(misreads, method, count),
        }
    }

    /// Notes the name of a method after that of a class.
    fn note_method_of(
        &self,
        misreads: &mut Misreads,
        class: &Id,
        method: &Id,
        arity: u32,
    ) -> Result<(), OutOfMemory>
        requires { AreReadAt (N.writer self.now.names.now) (N.locals self.now.names.now) self.now.place self.now.locals.now }
        ensures { let writer = N.writer self.now.names.now in
            let locals = N.locals self.now.names.now in
            OnOk result (misreads.new ≡ note writer misreads.old (call_reference writer locals (on_class class.now) method.now arity)) }
    {
        let spelled = self.spelled(TypePlace::Expression, Importable::Class(class))?;
        let path = spelled.names(self.alloc)?;
        let name = Text::from_str(self.alloc, self.names.name_of(method))?;
        let target = Target::Method(*method);
        let place = self.instead_place();
        let reads = static_method_reads(&place, &target, path.as_slice(), &name, arity)?;
        self.note(misreads, &target, reads)
    }

    /// Notes the name of a method without anything before it, with so many arguments.
    fn note_simply(
        &self,
        misreads: &mut Misreads,
        method: &Id,
        arity: u32,
    ) -> Result<(), OutOfMemory>
        requires { AreReadAt (N.writer self.now.names.now) (N.locals self.now.names.now) self.now.place self.now.locals.now }
        ensures { let writer = N.writer self.now.names.now in
            let locals = N.locals self.now.names.now in
            OnOk result (misreads.new ≡ note writer misreads.old (call_reference writer locals by_name method.now arity)) }
    {
        let name = Text::from_str(self.alloc, self.names.name_of(method))?;
        let target = Target::Method(*method);
        let reads = call_reads(&self.place, &target, &name, arity);
        self.note(misreads, &target, reads)
    }

    /// Notes the name of a method of a value of this type, with so many arguments.
    pub(crate) fn note_method_on(
        &self,
        misreads: &mut Misreads,
        ty: &StaticType<'_>,
        method: &Id,
        arity: usize,
    ) -> Result<(), OutOfMemory>
        requires { AreReadAt (N.writer self.now.names.now) (N.locals self.now.names.now) self.now.place self.now.locals.now }
        ensures { let writer = N.writer self.now.names.now in
            let locals = N.locals self.now.names.now in
            OnOk result (misreads.new ≡ note writer misreads.old (method_on_reference writer locals (view_value ty.now) method.now arity)) }
    {
        let count = number_of(arity)?;
        let name = Text::from_str(self.alloc, self.names.name_of(method))?;
        let target = Target::Method(*method);
        let reads = method_reads(&self.place, &target, ty, &name, count);
        self.note(misreads, &target, reads)
    }

    /// Notes the name of a method after `super.`, with so many arguments.
    pub(crate) fn note_super_method(
        &self,
        misreads: &mut Misreads,
        method: &Id,
        arity: usize,
    ) -> Result<(), OutOfMemory>
        requires { AreReadAt (N.writer self.now.names.now) (N.locals self.now.names.now) self.now.place self.now.locals.now }
        ensures { let writer = N.writer self.now.names.now in
            let locals = N.locals self.now.names.now in
            OnOk result (misreads.new ≡ note writer misreads.old (super_reference writer locals method.now arity)) }
    {
        let count = number_of(arity)?;
        let name = Text::from_str(self.alloc, self.names.name_of(method))?;
        let target = Target::Method(*method);
        let reads = super_method_reads(&self.place, &target, &name, count);
        self.note(misreads, &target, reads)
    }

    /// Notes the name of a method outside without anything before it, with so many arguments.
    pub(crate) fn note_outside_call(
        &self,
        misreads: &mut Misreads,
        name: &Text,
        arity: usize,
    ) -> Result<(), OutOfMemory>
        requires { AreReadAt (N.writer self.now.names.now) (N.locals self.now.names.now) self.now.place self.now.locals.now }
        ensures { let writer = N.writer self.now.names.now in
            let locals = N.locals self.now.names.now in
            OnOk result (misreads.new ≡ note writer misreads.old (outside_call_reference writer locals name.now arity)) }
    {
        let count = number_of(arity)?;
        let target = Target::Outside(name.as_str());
        let reads = call_reads(&self.place, &target, name, count);
        self.note(misreads, &target, reads)
    }

    /// Notes the name of a method outside of a value of this type, with so many arguments.
    pub(crate) fn note_outside_on(
        &self,
        misreads: &mut Misreads,
        ty: &StaticType<'_>,
        name: &Text,
        arity: usize,
    ) -> Result<(), OutOfMemory>
        requires { AreReadAt (N.writer self.now.names.now) (N.locals self.now.names.now) self.now.place self.now.locals.now }
        ensures { let writer = N.writer self.now.names.now in
            let locals = N.locals self.now.names.now in
            OnOk result (misreads.new ≡ note writer misreads.old (outside_on_reference writer locals (view_value ty.now) name.now arity)) }
    {
        let count = number_of(arity)?;
        let target = Target::Outside(name.as_str());
        let reads = method_reads(&self.place, &target, ty, name, count);
        self.note(misreads, &target, reads)
    }

    /// Notes the name of a method outside after `super.`, with so many arguments.
    pub(crate) fn note_outside_super(
        &self,
        misreads: &mut Misreads,
        name: &Text,
        arity: usize,
    ) -> Result<(), OutOfMemory>
        requires { AreReadAt (N.writer self.now.names.now) (N.locals self.now.names.now) self.now.place self.now.locals.now }
        ensures { let writer = N.writer self.now.names.now in
            let locals = N.locals self.now.names.now in
            OnOk result (misreads.new ≡ note writer misreads.old (outside_super_reference writer locals name.now arity)) }
    {
        let count = number_of(arity)?;
        let target = Target::Outside(name.as_str());
        let reads = super_method_reads(&self.place, &target, name, count);
        self.note(misreads, &target, reads)
    }
}
