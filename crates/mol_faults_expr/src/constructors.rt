//! Constructors after `new` (JLS 15.9) and by `super(..)` (JLS 8.8.7.1).
ghost use Rattle.std.specs.Prelude.{◌≡◌, ◌∷◌, [], IfOk, OnOk};
ghost use Rattle.jav_names.specs.OnValues.{class_value};
ghost use Rattle.mol_scope.specs.asked.Answers.{target_of};
ghost use Rattle.mol_faults_expr.specs.Names.{created_class_reference, created_value};
ghost use Rattle.mol_faults_expr.specs.Noted.{IsRead, note};
ghost use Rattle.mol_faults_expr.specs.Places.{AreReadAt};
ghost use Rattle.mol_spell_rules.specs.references.References.{default_target};
ghost use Rattle.mol_resolve_rules.specs.StaticTypes.{class_of_only_declaration};
ghost use Rattle.mol_spell_rules.specs.SpelledExpressions.{constructor_reference, plain};
ghost use Rattle.mol_spell_rules.specs.Writers.{super_constructor_asked};

use crate::expr_reader::ExprReader;
use crate::misreads::Misreads;
use crate::reads::{constructor_reads, super_reads};
use mol_base::{Id, OutOfMemory, number_of};
use mol_scope::{StaticType, Target};
use mol_spell_expr::{Importable, Names, TypePlace};

impl<'a, N: Names> ExprReader<'a, '_, N> {
    /// Notes `super(..)` with so many arguments, which is the name of this constructor.
    pub fn note_super(
        &self,
        misreads: &mut Misreads,
        target: &Target<'_>,
        arity: usize,
    ) -> Result<(), OutOfMemory>
        requires { AreReadAt (N.writer self.now.names.now) (N.locals self.now.names.now) self.now.place self.now.locals.now }
        ensures { let writer = N.writer self.now.names.now in
            let locals = N.locals self.now.names.now in
            OnOk result (misreads.new
            ≡ note writer misreads.old (plain writer locals (target_of target.now) (super_constructor_asked arity))) }
    {
        let count = number_of(arity)?;
        let reads = super_reads(&self.place, target, count);
        self.note(misreads, target, reads)
    }

    /// Notes a constructor, with so many arguments; the answer is the static type of what is created: mixed where nothing declares the
    /// constructor.
    pub(crate) fn constructor(
        &self,
        misreads: &mut Misreads,
        constructor: &Id,
        arity: usize,
    ) -> Result<StaticType<'a>, OutOfMemory>
        requires { AreReadAt (N.writer self.now.names.now) (N.locals self.now.names.now) self.now.place self.now.locals.now }
        ensures { let writer = N.writer self.now.names.now in
            let locals = N.locals self.now.names.now in
            let class = class_of_only_declaration writer.program constructor.now in
            IfOk result (λ kept. IsRead writer misreads.old misreads.new
            (constructor_reference writer locals class constructor.now arity ∷ [])
            (created_value class) kept) }
    {
        let count = number_of(arity)?;
        let target = Target::Method(*constructor);
        match self.names.declaring_class(constructor) {
            Some(class) => self.created_class(misreads, &target, &class, count),
            None => {
                let reads = constructor_reads(&self.place, &target, "$", count);
                self.note(misreads, &target, reads)?;
                Ok(StaticType::Mixed)
            },
        }
    }

    /// Notes the default constructor of a class; the answer is the static type of what is created.
    pub(crate) fn default_creation(
        &self,
        misreads: &mut Misreads,
        class: &Id,
    ) -> Result<StaticType<'a>, OutOfMemory>
        requires { AreReadAt (N.writer self.now.names.now) (N.locals self.now.names.now) self.now.place self.now.locals.now }
        ensures { let writer = N.writer self.now.names.now in
            let locals = N.locals self.now.names.now in
            IfOk result (λ kept. IsRead writer misreads.old misreads.new
            (created_class_reference writer locals (default_target class.now) class.now 0 ∷ [])
            (class_value class.now) kept) }
    {
        self.created_class(misreads, &Target::Default(*class), class, 0)
    }

    /// Notes a constructor after the name of a class; the answer is the static type of what is created.
    fn created_class(
        &self,
        misreads: &mut Misreads,
        target: &Target<'_>,
        class: &Id,
        arity: u32,
    ) -> Result<StaticType<'a>, OutOfMemory>
        requires { AreReadAt (N.writer self.now.names.now) (N.locals self.now.names.now) self.now.place self.now.locals.now }
        ensures { let writer = N.writer self.now.names.now in
            let locals = N.locals self.now.names.now in
            IfOk result (λ kept. IsRead writer misreads.old misreads.new
            (created_class_reference writer locals (target_of target.now) class.now arity ∷ [])
            (class_value class.now) kept) }
    {
        let spelled = self.spelled(TypePlace::Expression, Importable::Class(class))?;
        let reads = constructor_reads(&self.place, target, spelled.text.as_str(), arity);
        self.note(misreads, target, reads)?;
        Ok(StaticType::Class(*class))
    }
}
