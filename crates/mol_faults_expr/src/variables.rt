//! Locals, parameters and what is outside, by their names (JLS 6.5.2, 6.5.6.1).
ghost use Rattle.std.specs.Prelude.{◌≡◌, ◌∷◌, [], IfOk, None, OnOk, Some};
ghost use Rattle.jav_names.specs.OnValues.{outside_value};
ghost use Rattle.mol_scope.specs.asked.Answers.{target_of};
ghost use Rattle.mol_faults_expr.specs.Kept.{mode_of};
ghost use Rattle.mol_faults_expr.specs.Names.{class_reference, local_reference, local_value, name_reference, param_reference};
ghost use Rattle.mol_faults_expr.specs.Noted.{IsRead, note};
ghost use Rattle.mol_faults_expr.specs.Places.{AreReadAt};
ghost use Rattle.mol_resolve_rules.specs.StaticTypes.{param_value};
ghost use Rattle.mol_spell_rules.specs.SpelledExpressions.{asks_name};
ghost use Rattle.mol_spell_rules.specs.Writers.{Reference, name_before_asked};

use crate::expr_reader::ExprReader;
use crate::followers::Followers;
use crate::misreads::Misreads;
use crate::paths::{outside_reads, path_reads};
use crate::reads::{name_before_reads, name_reads};
use crate::spelled::add_name;
use crate::values::param_value;
use mol_base::{Id, OutOfMemory, Text};
use mol_scope::{StaticType, Target};
use mol_spell_expr::{Importable, Names, TypePlace};

impl<'a, N: Names> ExprReader<'a, '_, N> {
    /// Notes the name of a local, by its number; the answer is its static type.
    pub(crate) fn local(
        &self,
        misreads: &mut Misreads,
        number: u32,
        mode: Option<&Followers<'_>>,
    ) -> Result<StaticType<'a>, OutOfMemory>
        requires { AreReadAt (N.writer self.now.names.now) (N.locals self.now.names.now) self.now.place self.now.locals.now }
        ensures { let writer = N.writer self.now.names.now in
            let locals = N.locals self.now.names.now in
            IfOk result (λ kept. IsRead writer misreads.old misreads.new (local_reference writer locals number (mode_of mode.entry) ∷ [])
            (local_value writer locals number) kept) }
    {
        let target = Target::Local(number);
        self.note_variable(misreads, &target, self.names.local_name(number), mode)?;
        match self.locals.local(number) {
            Some(local) => Ok(StaticType::of_type(local.ty)),
            None => Ok(StaticType::Mixed),
        }
    }

    /// Notes the name of a parameter; the answer is its static type.
    pub(crate) fn param(
        &self,
        misreads: &mut Misreads,
        id: &Id,
        mode: Option<&Followers<'_>>,
    ) -> Result<StaticType<'a>, OutOfMemory>
        requires { AreReadAt (N.writer self.now.names.now) (N.locals self.now.names.now) self.now.place self.now.locals.now }
        ensures { let writer = N.writer self.now.names.now in
            let locals = N.locals self.now.names.now in
            IfOk result (λ kept. IsRead writer misreads.old misreads.new (param_reference writer locals id.now (mode_of mode.entry) ∷ [])
            (param_value writer.program id.now) kept) }
    {
        let target = Target::Param(*id);
        self.note_variable(misreads, &target, self.names.param_name(id), mode)?;
        Ok(param_value(self.table(), id))
    }

    /// Notes a name outside; the answer is its static type.
    pub(crate) fn outside_name(
        &self,
        misreads: &mut Misreads,
        name: &Text,
        mode: Option<&Followers<'_>>,
    ) -> Result<StaticType<'a>, OutOfMemory>
        requires { AreReadAt (N.writer self.now.names.now) (N.locals self.now.names.now) self.now.place self.now.locals.now }
        ensures { let writer = N.writer self.now.names.now in
            let locals = N.locals self.now.names.now in
            IfOk result (λ kept. IsRead writer misreads.old misreads.new
            (name_reference writer locals name.now (mode_of mode.entry) ∷ []) outside_value kept) }
    {
        let target = Target::Outside(name.as_str());
        self.note_variable(misreads, &target, name.as_str(), mode)?;
        Ok(StaticType::Outside)
    }

    /// Notes the name of a variable, by what it is the name of: it stands alone, or before a dot and names that follow it.
    pub(crate) fn note_variable(
        &self,
        misreads: &mut Misreads,
        target: &Target<'_>,
        name: &str,
        mode: Option<&Followers<'_>>,
    ) -> Result<(), OutOfMemory>
        requires { AreReadAt (N.writer self.now.names.now) (N.locals self.now.names.now) self.now.place self.now.locals.now }
        ensures { let writer = N.writer self.now.names.now in
            let locals = N.locals self.now.names.now in
            OnOk result ((reference : Reference) → target_of target.now ≡ reference.target → locals ≡ reference.locals
            → asks_name writer locals name.now (mode_of mode.entry) ≡ reference.asked → misreads.new ≡ note writer misreads.old reference) }
    {
        match mode {
            None => {
                let reads = name_reads(&self.place, target, name);
                self.note(misreads, target, reads)
            },
            Some(follow) => self.note_before(misreads, target, name, follow),
        }
    }

    /// Notes the name of a variable, by what it is the name of, before a dot and names that follow it.
    fn note_before(
        &self,
        misreads: &mut Misreads,
        target: &Target<'_>,
        name: &str,
        follow: &Followers<'_>,
    ) -> Result<(), OutOfMemory>
        requires { AreReadAt (N.writer self.now.names.now) (N.locals self.now.names.now) self.now.place self.now.locals.now }
        ensures { let writer = N.writer self.now.names.now in
            let locals = N.locals self.now.names.now in
            OnOk result ((reference : Reference) → target_of target.now ≡ reference.target → locals ≡ reference.locals
            → name_before_asked name.now follow.now ≡ reference.asked → misreads.new ≡ note writer misreads.old reference) }
    {
        let mut names = Vec::new(self.alloc);
        add_name(self.alloc, &mut names, name)?;
        follow.add_to(self.alloc, &mut names)?;
        let reads = name_before_reads(&self.place, target, names.as_slice());
        self.note(misreads, target, reads)
    }

    /// Notes the names of an imported type outside that stand alone; the answer is the static type.
    pub(crate) fn outside_class(
        &self,
        misreads: &mut Misreads,
        full: &Text,
    ) -> Result<StaticType<'a>, OutOfMemory>
        requires { AreReadAt (N.writer self.now.names.now) (N.locals self.now.names.now) self.now.place self.now.locals.now }
        ensures { let writer = N.writer self.now.names.now in
            let locals = N.locals self.now.names.now in
            IfOk result (λ kept. IsRead writer misreads.old misreads.new (class_reference writer locals full.now None ∷ [])
            outside_value kept) }
    {
        let spelled = self.spelled(TypePlace::Expression, Importable::Import(full))?;
        let names = spelled.names(self.alloc)?;
        let target = Target::Outside(full.as_str());
        let place = self.instead_place();
        let reads = outside_reads(&place, &target, spelled.dotted(), names.as_slice())?;
        self.note(misreads, &target, reads)?;
        Ok(StaticType::Outside)
    }

    /// Notes the names of an imported type outside before a dot and names that follow it; the answer is the static
    /// type.
    pub(crate) fn outside_class_before(
        &self,
        misreads: &mut Misreads,
        full: &Text,
        follow: &Followers<'_>,
    ) -> Result<StaticType<'a>, OutOfMemory>
        requires { AreReadAt (N.writer self.now.names.now) (N.locals self.now.names.now) self.now.place self.now.locals.now }
        ensures { let writer = N.writer self.now.names.now in
            let locals = N.locals self.now.names.now in
            IfOk result (λ kept. IsRead writer misreads.old misreads.new
            (class_reference writer locals full.now (Some follow.now) ∷ [])
            outside_value kept) }
    {
        let spelled = self.spelled(TypePlace::Expression, Importable::Import(full))?;
        let mut names = spelled.names(self.alloc)?;
        let count = names.len();
        follow.add_to(self.alloc, &mut names)?;
        let target = Target::Outside(full.as_str());
        let place = self.instead_place();
        let reads = path_reads(&place, &target, spelled.dotted(), names.as_slice(), count)?;
        self.note(misreads, &target, reads)?;
        Ok(StaticType::Outside)
    }
}
