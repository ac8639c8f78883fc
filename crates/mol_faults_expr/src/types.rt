//! The names of types (JLS 6.5.5).
ghost use Rattle.std.specs.Prelude.{◌≡◌, IfOk, OnOk};
ghost use Rattle.jav_names.specs.TypeTexts.{imported_text};
ghost use Rattle.mol_scope.specs.asked.Answers.{target_of};
ghost use Rattle.mol_faults_expr.specs.Noted.{note, noted_after};
ghost use Rattle.mol_faults_expr.specs.Places.{AreReadAt};
ghost use Rattle.mol_faults_expr.specs.References.{type_references};
ghost use Rattle.mol_spell_rules.specs.Writers.{Reference, type_asked};
ghost use Rattle.mol_values_types.specs.declared.itype.IType.TheVariants as types;

use crate::expr_reader::ExprReader;
use crate::misreads::Misreads;
use crate::reads::type_reads;
use crate::spelled::with_dot;
use mol_base::{Id, OutOfMemory, Text};
use mol_scope::Target;
use mol_spell_expr::{Importable, Names, TypePlace};
use mol_values_types::IType;
use std::alloc::Global;

impl<N: Names> ExprReader<'_, '_, N> {
    /// Notes the name in a type at such a place, if there is one.
    pub fn note_type(
        &self,
        misreads: &mut Misreads,
        place: TypePlace,
        ty: &IType,
    ) -> Result<(), OutOfMemory>
        requires { AreReadAt (N.writer self.now.names.now) (N.locals self.now.names.now) self.now.place self.now.locals.now }
        ensures { let writer = N.writer self.now.names.now in
            let locals = N.locals self.now.names.now in
            OnOk result (misreads.new ≡ noted_after writer misreads.old (type_references writer locals place ty.now)) }
    {
        match ty {
            IType::Boolean => Ok(()),
            IType::Byte => Ok(()),
            IType::Short => Ok(()),
            IType::Char => Ok(()),
            IType::Int => Ok(()),
            IType::Long => Ok(()),
            IType::Void => Ok(()),
            IType::Class(class) => self.note_class(misreads, place, class),
            IType::Imported(full, rest) => self.note_imported(
                misreads,
                place,
                full,
                rest.get().as_str(),
            ),
            IType::Written(text) => {
                let text = text.as_str();
                self.note_name(misreads, &Target::Outside(text), text)
            },
            IType::Array(item) => self.note_type(misreads, place, item.get()),
        }
    }

    /// Notes the name of a class.
    fn note_class(
        &self,
        misreads: &mut Misreads,
        place: TypePlace,
        class: &Id,
    ) -> Result<(), OutOfMemory>
        requires { AreReadAt (N.writer self.now.names.now) (N.locals self.now.names.now) self.now.place self.now.locals.now }
        ensures { let writer = N.writer self.now.names.now in
            let locals = N.locals self.now.names.now in
            OnOk result (misreads.new ≡ noted_after writer misreads.old (type_references writer locals place (types.Class class.now))) }
    {
        let spelled = self.spelled(place, Importable::Class(class))?;
        let target = Target::Class(*class);
        self.note_name(misreads, &target, spelled.text.as_str())
    }

    /// Notes the name of an imported type, and after a dot the names that follow it, if there are any.
    fn note_imported(
        &self,
        misreads: &mut Misreads,
        place: TypePlace,
        full: &Text,
        rest: &str,
    ) -> Result<(), OutOfMemory>
        requires { AreReadAt (N.writer self.now.names.now) (N.locals self.now.names.now) self.now.place self.now.locals.now }
        ensures { let writer = N.writer self.now.names.now in
            let locals = N.locals self.now.names.now in
            let references = type_references writer locals place (types.Imported full.now rest.now) in
            OnOk result (misreads.new ≡ noted_after writer misreads.old references) }
    {
        let spelled = self.spelled(place, Importable::Import(full))?;
        let text = imported_text(self.alloc, spelled.text.as_str(), rest)?;
        let whole = imported_text(self.alloc, full.as_str(), rest)?;
        let target = Target::Outside(whole.as_str());
        self.note_name(misreads, &target, text.as_str())
    }

    /// Notes the name of a type, by what it is the name of.
    fn note_name(
        &self,
        misreads: &mut Misreads,
        target: &Target<'_>,
        text: &str,
    ) -> Result<(), OutOfMemory>
        requires { AreReadAt (N.writer self.now.names.now) (N.locals self.now.names.now) self.now.place self.now.locals.now }
        ensures { let writer = N.writer self.now.names.now in
            OnOk result ((reference : Reference) → target_of target.now ≡ reference.target
            → reference.asked ≡ type_asked text.now → misreads.new ≡ note writer misreads.old reference) }
    {
        let reads = type_reads(&self.place, target, text);
        self.note(misreads, target, reads)
    }
}

/// A full name or a simple one, and after a dot the names that follow it, if there are any.
fn imported_text(alloc: Global, text: &str, rest: &str) -> Result<Text, OutOfMemory>
    ensures { IfOk result (λ whole. whole ≡ imported_text text.now rest.now) }
{
    if rest.is_empty() {
        return Text::from_str(alloc, text);
    }
    with_dot(alloc, text, rest)
}
