//! Expressions and types in statements.
ghost use Rattle.std.specs.Prelude.{◌≡◌, ◌++◌, OnOk};
ghost use Rattle.mol_spell_places.specs.body_locals.Kept.{locals_of};
ghost use Rattle.mol_faults_misread.specs.body_misreads.CellPlaces.{IsReadAt};
ghost use Rattle.mol_faults_misread.specs.body_misreads.PartReferences.{declared_references, maybe_references, typed_references};
ghost use Rattle.mol_faults_expr.specs.Noted.{noted_after};
ghost use Rattle.mol_faults_expr.specs.References.{all_references, argument_references, expr_references};

use crate::body_misreads::body_reader::BodyReader;
use mol_base::OutOfMemory;
use mol_faults_expr::{ExprReader, Misreads};
use mol_spell_expr::TypePlace;
use mol_spell_places::{BodyLocals, InBody, Places};
use mol_values_types::{Argument, IExpr, IType};

impl<'a, P: Places> BodyReader<'a, '_, P> {
    /// Notes the names of an expression.
    pub(crate) fn note_expr(
        &self,
        misreads: &mut Misreads,
        locals: &BodyLocals<'a>,
        e: &'a IExpr,
    ) -> Result<(), OutOfMemory>
        requires { IsReadAt (P.writer self.now.places.now) self.now.place }
        ensures { let writer = P.writer self.now.places.now in OnOk result (misreads.new
            ≡ noted_after writer misreads.old (expr_references writer (locals_of locals.now) e.now)) }
    {
        self.read_expr(misreads, locals, e)
    }

    /// Notes the names of an expression, beside locals that are lent for as long as the place where it is read.
    fn read_expr<'l>(
        &'l self,
        misreads: &mut Misreads,
        locals: &'l BodyLocals<'a>,
        e: &'a IExpr,
    ) -> Result<(), OutOfMemory>
        requires { IsReadAt (P.writer self.now.places.now) self.now.place }
        ensures { let writer = P.writer self.now.places.now in OnOk result (misreads.new
            ≡ noted_after writer misreads.old (expr_references writer (locals_of locals.now) e.now)) }
    {
        let names = InBody {
            places: self.places,
            locals,
        };
        let reader = ExprReader {
            alloc: self.alloc,
            names: &names,
            place: self.place_beside(locals),
            locals,
        };
        reader.note_expr(misreads, e)
    }

    /// Notes the names of expressions, one after the other.
    pub(crate) fn note_all(
        &self,
        misreads: &mut Misreads,
        locals: &BodyLocals<'a>,
        items: &'a [IExpr],
    ) -> Result<(), OutOfMemory>
        requires { IsReadAt (P.writer self.now.places.now) self.now.place }
        ensures { let writer = P.writer self.now.places.now in OnOk result (misreads.new
            ≡ noted_after writer misreads.old (all_references writer (locals_of locals.now) items.now)) }
    {
        for item in items {
            self.note_expr(misreads, locals, item)?;
        }
        Ok(())
    }

    /// Notes the names of the values of arguments, one after the other.
    pub(crate) fn note_arguments(
        &self,
        misreads: &mut Misreads,
        locals: &BodyLocals<'a>,
        args: &'a [Argument],
    ) -> Result<(), OutOfMemory>
        requires { IsReadAt (P.writer self.now.places.now) self.now.place }
        ensures { let writer = P.writer self.now.places.now in OnOk result (misreads.new
            ≡ noted_after writer misreads.old (argument_references writer (locals_of locals.now) args.now)) }
    {
        for arg in args {
            self.note_expr(misreads, locals, &arg.value)?;
        }
        Ok(())
    }

    /// Notes the names of an expression, if there is one.
    pub(crate) fn note_maybe(
        &self,
        misreads: &mut Misreads,
        locals: &BodyLocals<'a>,
        e: &'a Option<IExpr>,
    ) -> Result<(), OutOfMemory>
        requires { IsReadAt (P.writer self.now.places.now) self.now.place }
        ensures { let writer = P.writer self.now.places.now in OnOk result (misreads.new
            ≡ noted_after writer misreads.old (maybe_references writer (locals_of locals.now) e.now)) }
    {
        match e {
            Some(e) => self.note_expr(misreads, locals, e),
            None => Ok(()),
        }
    }

    /// Notes the names of the type of a declaration, where no variable hides the name of a class (JLS 6.4.2).
    pub(crate) fn note_declared_type(
        &self,
        misreads: &mut Misreads,
        locals: &BodyLocals<'a>,
        ty: &IType,
    ) -> Result<(), OutOfMemory>
        requires { IsReadAt (P.writer self.now.places.now) self.now.place }
        ensures { let writer = P.writer self.now.places.now in OnOk result (misreads.new
            ≡ noted_after writer misreads.old (declared_references writer (locals_of locals.now) ty.now)) }
    {
        self.read_declared_type(misreads, locals, ty)
    }

    /// Notes the names of the type of a declaration, beside locals that are lent for as long as the place where it is read.
    fn read_declared_type<'l>(
        &'l self,
        misreads: &mut Misreads,
        locals: &'l BodyLocals<'a>,
        ty: &IType,
    ) -> Result<(), OutOfMemory>
        requires { IsReadAt (P.writer self.now.places.now) self.now.place }
        ensures { let writer = P.writer self.now.places.now in OnOk result (misreads.new
            ≡ noted_after writer misreads.old (declared_references writer (locals_of locals.now) ty.now)) }
    {
        let names = InBody {
            places: self.places,
            locals,
        };
        let reader = ExprReader {
            alloc: self.alloc,
            names: &names,
            place: self.place_beside(locals),
            locals,
        };
        reader.note_type(misreads, TypePlace::Declaration, ty)
    }

    /// Notes the names of the type of a declaration and of an expression.
    pub(crate) fn note_typed(
        &self,
        misreads: &mut Misreads,
        locals: &BodyLocals<'a>,
        ty: &IType,
        e: &'a IExpr,
    ) -> Result<(), OutOfMemory>
        requires { IsReadAt (P.writer self.now.places.now) self.now.place }
        ensures { let writer = P.writer self.now.places.now in OnOk result (misreads.new
            ≡ noted_after writer misreads.old (typed_references writer (locals_of locals.now) ty.now e.now)) }
    {
        self.note_declared_type(misreads, locals, ty)?;
        self.note_expr(misreads, locals, e)
    }

    /// Notes the names of the test and the steps of a `for`.
    pub(crate) fn note_test_and_steps(
        &self,
        misreads: &mut Misreads,
        locals: &BodyLocals<'a>,
        test: &'a Option<IExpr>,
        steps: &'a [IExpr],
    ) -> Result<(), OutOfMemory>
        requires { IsReadAt (P.writer self.now.places.now) self.now.place }
        ensures { let writer = P.writer self.now.places.now in let locals = locals_of locals.now in OnOk result (misreads.new
            ≡ noted_after writer misreads.old (maybe_references writer locals test.now ++ all_references writer locals steps.now)) }
    {
        self.note_maybe(misreads, locals, test)?;
        self.note_all(misreads, locals, steps)
    }
}
