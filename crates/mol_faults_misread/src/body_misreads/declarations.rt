//! Declarations of local variables (JLS 14.4).
ghost use Rattle.std.specs.Prelude.{OnOk, map};
ghost use Rattle.mol_spell_places.specs.body_locals.Kept.{locals_of};
ghost use Rattle.mol_faults_misread.specs.body_misreads.CellPlaces.{IsReadAt};
ghost use Rattle.mol_faults_misread.specs.body_misreads.NotedOn.{NotedOn};
ghost use Rattle.mol_resolve_rules.specs.ProgramViews.{seen};
ghost use Rattle.mol_spell_rules.specs.SpelledStatements.{declarator, each, spelled_let, spelled_start};

use crate::body_misreads::body_reader::BodyReader;
use mol_base::OutOfMemory;
use mol_faults_expr::Misreads;
use mol_spell_places::{BodyLocals, Places};
use mol_values_types::{IDeclarator, IForStart, ILet, IType};

impl<'a, P: Places> BodyReader<'a, '_, P> {
    /// Notes the names of a declaration of variables of one type.
    pub(crate) fn note_let(
        &self,
        misreads: &mut Misreads,
        locals: &mut BodyLocals<'a>,
        declared: &'a ILet,
    ) -> Result<(), OutOfMemory>
        requires { IsReadAt (P.writer self.now.places.now) self.now.place }
        ensures { let writer = P.writer self.now.places.now in OnOk result (NotedOn writer (spelled_let writer declared.now)
            (locals_of locals.old) misreads.old (locals_of locals.new) misreads.new) }
    {
        self.note_declared_type(misreads, locals, &declared.ty)?;
        self.note_declarators(misreads, locals, &declared.ty, declared.names.items())
    }

    /// Notes the names of the first values of variables of a type, one after the other.
    fn note_declarators(
        &self,
        misreads: &mut Misreads,
        locals: &mut BodyLocals<'a>,
        ty: &'a IType,
        names: &'a [IDeclarator],
    ) -> Result<(), OutOfMemory>
        requires { IsReadAt (P.writer self.now.places.now) self.now.place }
        ensures { let writer = P.writer self.now.places.now in OnOk result (NotedOn writer
            (each (map (declarator writer (seen ty.now)) names.now))
            (locals_of locals.old) misreads.old (locals_of locals.new) misreads.new) }
    {
        for name in names {
            self.note_declarator(misreads, locals, ty, name)?;
        }
        Ok(())
    }

    /// Notes the names of the first value of a variable, which stands in the variable's own scope.
    fn note_declarator(
        &self,
        misreads: &mut Misreads,
        locals: &mut BodyLocals<'a>,
        ty: &'a IType,
        declared: &'a IDeclarator,
    ) -> Result<(), OutOfMemory>
        requires { IsReadAt (P.writer self.now.places.now) self.now.place }
        ensures { let writer = P.writer self.now.places.now in OnOk result (NotedOn writer (declarator writer (seen ty.now) declared.now)
            (locals_of locals.old) misreads.old (locals_of locals.new) misreads.new) }
    {
        locals.declare(&declared.name, ty)?;
        self.note_maybe(misreads, locals, &declared.init)
    }

    /// Notes the names of what stands before the first `;` in the header of a `for`.
    pub(crate) fn note_start(
        &self,
        misreads: &mut Misreads,
        locals: &mut BodyLocals<'a>,
        start: &'a IForStart,
    ) -> Result<(), OutOfMemory>
        requires { IsReadAt (P.writer self.now.places.now) self.now.place }
        ensures { let writer = P.writer self.now.places.now in OnOk result (NotedOn writer (spelled_start writer start.now)
            (locals_of locals.old) misreads.old (locals_of locals.new) misreads.new) }
    {
        match start {
            IForStart::None => Ok(()),
            IForStart::Let(declared) => self.note_let(misreads, locals, declared),
            IForStart::Do(items) => self.note_all(misreads, locals, items.items()),
        }
    }
}
