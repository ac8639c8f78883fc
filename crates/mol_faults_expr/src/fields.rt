//! Fields by their simple names, after `this`, after the name of their class and of values (JLS 6.5.6, 15.11).
ghost use Rattle.std.specs.Prelude.{◌≡◌, ◌∷◌, [], IfOk, OnOk};
ghost use Rattle.mol_faults_expr.specs.Kept.{mode_of};
ghost use Rattle.mol_faults_expr.specs.Names.{field_on_reference, outside_field_reference};
ghost use Rattle.mol_faults_expr.specs.Noted.{IsRead, note};
ghost use Rattle.mol_faults_expr.specs.Places.{AreReadAt};
ghost use Rattle.mol_resolve_rules.specs.StaticTypes.{field_value};
ghost use Rattle.mol_spell_rules.specs.SpelledExpressions.{field_reference, on_class, own_form, static_form};
ghost use Rattle.mol_scope.specs.types.Kept.{view_value};

use crate::expr_reader::ExprReader;
use crate::followers::{Followers, add_followers};
use crate::misreads::Misreads;
use crate::paths::static_field_reads;
use crate::reads::field_reads;
use crate::spelled::add_name;
use crate::values::field_value;
use mol_base::{Id, OutOfMemory, Text};
use mol_scope::{StaticType, Target};
use mol_spell_expr::{Importable, Names, TypePlace};

impl<'a, N: Names> ExprReader<'a, '_, N> {
    /// Notes the name of a field of `this`; the answer is its static type.
    pub(crate) fn own_field(
        &self,
        misreads: &mut Misreads,
        field: &Id,
        mode: Option<&Followers<'_>>,
    ) -> Result<StaticType<'a>, OutOfMemory>
        requires { AreReadAt (N.writer self.now.names.now) (N.locals self.now.names.now) self.now.place self.now.locals.now }
        ensures { let writer = N.writer self.now.names.now in
            let locals = N.locals self.now.names.now in
            IfOk result (λ kept. IsRead writer misreads.old misreads.new
            (field_reference writer locals (own_form writer locals field.now) field.now (mode_of mode.entry) ∷ [])
            (field_value writer.program field.now) kept) }
    {
        self.note_own_field(misreads, field, mode)?;
        Ok(field_value(self.table(), field))
    }

    /// Notes the name of a static field; the answer is its static type.
    pub(crate) fn static_field(
        &self,
        misreads: &mut Misreads,
        field: &Id,
        mode: Option<&Followers<'_>>,
    ) -> Result<StaticType<'a>, OutOfMemory>
        requires { AreReadAt (N.writer self.now.names.now) (N.locals self.now.names.now) self.now.place self.now.locals.now }
        ensures { let writer = N.writer self.now.names.now in
            let locals = N.locals self.now.names.now in
            IfOk result (λ kept. IsRead writer misreads.old misreads.new
            (field_reference writer locals (static_form writer locals field.now) field.now (mode_of mode.entry) ∷ [])
            (field_value writer.program field.now) kept) }
    {
        self.note_static_field(misreads, field, mode)?;
        Ok(field_value(self.table(), field))
    }

    /// Notes the name of a field of `this`.
    fn note_own_field(
        &self,
        misreads: &mut Misreads,
        field: &Id,
        mode: Option<&Followers<'_>>,
    ) -> Result<(), OutOfMemory>
        requires { AreReadAt (N.writer self.now.names.now) (N.locals self.now.names.now) self.now.place self.now.locals.now }
        ensures { let writer = N.writer self.now.names.now in
            let locals = N.locals self.now.names.now in
            OnOk result (misreads.new
            ≡ note writer misreads.old (field_reference writer locals (own_form writer locals field.now) field.now (mode_of mode.entry))) }
    {
        if self.names.reads_field(field) {
            return misreads.add_read();
        }
        let ty = StaticType::Class(self.place.variables.class);
        self.note_field_on(misreads, &ty, field)
    }

    /// Notes the name of a static field.
    fn note_static_field(
        &self,
        misreads: &mut Misreads,
        field: &Id,
        mode: Option<&Followers<'_>>,
    ) -> Result<(), OutOfMemory>
        requires { AreReadAt (N.writer self.now.names.now) (N.locals self.now.names.now) self.now.place self.now.locals.now }
        ensures { let writer = N.writer self.now.names.now in
            let locals = N.locals self.now.names.now in
            let form = static_form writer locals field.now in
            OnOk result (misreads.new ≡ note writer misreads.old (field_reference writer locals form field.now (mode_of mode.entry))) }
    {
        if self.names.reads_field(field) {
            return misreads.add_read();
        }
        match self.names.owner_of(field) {
            Some(class) => self.note_field_of(misreads, &class, field, mode),
            None => {
                let target = Target::Field(*field);
                self.note_variable(misreads, &target, self.names.name_of(field), mode)
            },
        }
    }

    /// Notes the name of a field after that of a class.
    fn note_field_of(
        &self,
        misreads: &mut Misreads,
        class: &Id,
        field: &Id,
        mode: Option<&Followers<'_>>,
    ) -> Result<(), OutOfMemory>
        requires { AreReadAt (N.writer self.now.names.now) (N.locals self.now.names.now) self.now.place self.now.locals.now }
        ensures { let writer = N.writer self.now.names.now in
            let locals = N.locals self.now.names.now in
            let form = on_class class.now in
            OnOk result (misreads.new ≡ note writer misreads.old (field_reference writer locals form field.now (mode_of mode.entry))) }
    {
        let spelled = self.spelled(TypePlace::Expression, Importable::Class(class))?;
        let mut names = spelled.names(self.alloc)?;
        let count = names.len();
        add_name(self.alloc, &mut names, self.names.name_of(field))?;
        add_followers(self.alloc, &mut names, mode)?;
        let target = Target::Field(*field);
        let reads = static_field_reads(&self.instead_place(), &target, names.as_slice(), count)?;
        self.note(misreads, &target, reads)
    }

    /// Notes the name of a field of a value of this type.
    pub(crate) fn note_field_on(
        &self,
        misreads: &mut Misreads,
        ty: &StaticType<'_>,
        field: &Id,
    ) -> Result<(), OutOfMemory>
        requires { AreReadAt (N.writer self.now.names.now) (N.locals self.now.names.now) self.now.place self.now.locals.now }
        ensures { let writer = N.writer self.now.names.now in
            let locals = N.locals self.now.names.now in
            OnOk result (misreads.new ≡ note writer misreads.old (field_on_reference writer locals (view_value ty.now) field.now)) }
    {
        let target = Target::Field(*field);
        let reads = field_reads(&self.place, &target, ty, self.names.name_of(field));
        self.note(misreads, &target, reads)
    }

    /// Notes the name of a field outside of a value of this type.
    pub(crate) fn note_outside_field(
        &self,
        misreads: &mut Misreads,
        ty: &StaticType<'_>,
        name: &Text,
    ) -> Result<(), OutOfMemory>
        requires { AreReadAt (N.writer self.now.names.now) (N.locals self.now.names.now) self.now.place self.now.locals.now }
        ensures { let writer = N.writer self.now.names.now in
            let locals = N.locals self.now.names.now in
            OnOk result (misreads.new ≡ note writer misreads.old (outside_field_reference writer locals (view_value ty.now) name.now)) }
    {
        let target = Target::Outside(name.as_str());
        let reads = field_reads(&self.place, &target, ty, name.as_str());
        self.note(misreads, &target, reads)
    }
}
