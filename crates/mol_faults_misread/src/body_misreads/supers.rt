//! `super(..)` (JLS 8.8.7.1).
ghost use Rattle.std.specs.Prelude.{◌≡◌, ◌∷◌, OnOk, codes, length};
ghost use Rattle.mol_faults_expr.specs.Answers.{target_of};
ghost use Rattle.mol_spell_places.specs.body_locals.Kept.{locals_of};
ghost use Rattle.mol_faults_misread.specs.body_misreads.CellPlaces.{IsReadAt};
ghost use Rattle.mol_faults_misread.specs.body_misreads.PartReferences.{super_reference};
ghost use Rattle.mol_faults_expr.specs.Noted.{note, noted_after};
ghost use Rattle.mol_faults_expr.specs.References.{all_references, argument_references};
ghost use Rattle.mol_spell_rules.specs.references.References.{default_target, method_target, outside_target};

use crate::body_misreads::body_reader::BodyReader;
use mol_base::{Id, OutOfMemory};
use mol_faults_expr::{ExprReader, Misreads, Target};
use mol_spell_places::{BodyLocals, InBody, Places};
use mol_values_types::{Argument, IExpr};

impl<'a, P: Places> BodyReader<'a, '_, P> {
    /// Notes a constructor of the superclass, and the names of its arguments.
    pub(crate) fn note_super(
        &self,
        misreads: &mut Misreads,
        locals: &BodyLocals<'a>,
        constructor: &Id,
        args: &'a [Argument],
    ) -> Result<(), OutOfMemory>
        requires { IsReadAt (P.writer self.now.places.now) self.now.place }
        ensures { let writer = P.writer self.now.places.now in let locals = locals_of locals.now in
            let named = super_reference writer locals (method_target constructor.now) (length args.now) in OnOk result (misreads.new
            ≡ noted_after writer misreads.old (named ∷ argument_references writer locals args.now)) }
    {
        self.note_superclass(misreads, locals, &Target::Method(*constructor), args.len())?;
        self.note_arguments(misreads, locals, args)
    }

    /// Notes the default constructor of the superclass.
    pub(crate) fn note_super_default(
        &self,
        misreads: &mut Misreads,
        locals: &BodyLocals<'a>,
        class: &Id,
    ) -> Result<(), OutOfMemory>
        requires { IsReadAt (P.writer self.now.places.now) self.now.place }
        ensures { let writer = P.writer self.now.places.now in OnOk result (misreads.new
            ≡ note writer misreads.old (super_reference writer (locals_of locals.now) (default_target class.now) 0)) }
    {
        self.note_superclass(misreads, locals, &Target::Default(*class), 0)
    }

    /// Notes a constructor of a superclass outside, and the names of its arguments.
    pub(crate) fn note_super_outside(
        &self,
        misreads: &mut Misreads,
        locals: &BodyLocals<'a>,
        args: &'a [IExpr],
    ) -> Result<(), OutOfMemory>
        requires { IsReadAt (P.writer self.now.places.now) self.now.place }
        ensures { let writer = P.writer self.now.places.now in let locals = locals_of locals.now in
            let named = super_reference writer locals (outside_target (codes "super")) (length args.now) in OnOk result (misreads.new
            ≡ noted_after writer misreads.old (named ∷ all_references writer locals args.now)) }
    {
        self.note_superclass(misreads, locals, &Target::Outside("super"), args.len())?;
        self.note_all(misreads, locals, args)
    }

    /// Notes the constructor of the superclass, with so many arguments, by what it is the name of.
    fn note_superclass(
        &self,
        misreads: &mut Misreads,
        locals: &BodyLocals<'a>,
        target: &Target<'_>,
        arity: usize,
    ) -> Result<(), OutOfMemory>
        requires { IsReadAt (P.writer self.now.places.now) self.now.place }
        ensures { let writer = P.writer self.now.places.now in OnOk result (misreads.new
            ≡ note writer misreads.old (super_reference writer (locals_of locals.now) (target_of target.now) arity)) }
    {
        self.read_superclass(misreads, locals, target, arity)
    }

    /// Notes the constructor of the superclass, beside locals that are lent for as long as the place where it is read.
    fn read_superclass<'l>(
        &'l self,
        misreads: &mut Misreads,
        locals: &'l BodyLocals<'a>,
        target: &Target<'_>,
        arity: usize,
    ) -> Result<(), OutOfMemory>
        requires { IsReadAt (P.writer self.now.places.now) self.now.place }
        ensures { let writer = P.writer self.now.places.now in OnOk result (misreads.new
            ≡ note writer misreads.old (super_reference writer (locals_of locals.now) (target_of target.now) arity)) }
    {
        let names = InBody {
            places: self.places,
            locals,
        };
        let reader = ExprReader {
            alloc: self.alloc,
            names: &names,
            place: self.place_beside(locals),
            locals,
        };
        reader.note_super(misreads, target, arity)
    }
}
