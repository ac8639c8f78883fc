//! `for`, by a start, a test and steps, and over the items of a value (JLS 14.14).
ghost use Rattle.std.specs.Prelude.{OnOk};
ghost use Rattle.mol_spell_places.specs.body_locals.Kept.{locals_of};
ghost use Rattle.mol_faults_misread.specs.body_misreads.CellPlaces.{IsReadAt};
ghost use Rattle.mol_faults_misread.specs.body_misreads.NotedOn.{NotedOn};
ghost use Rattle.mol_spell_uses.specs.body_uses.Loops.{each_parts, for_parts, for_rest, in_own_block};
ghost use Rattle.mol_resolve_rules.specs.ProgramViews.{seen};
ghost use Rattle.mol_spell_rules.specs.SpelledStatements.{each_body, spelled_block};

use crate::body_misreads::body_reader::BodyReader;
use mol_base::{OutOfMemory, Text};
use mol_faults_expr::Misreads;
use mol_spell_places::{BodyLocals, Places};
use mol_values_types::{IBlock, IExpr, IForStart, IType};

impl<'a, P: Places> BodyReader<'a, '_, P> {
    /// Notes the names of a `for` with a start, a test and steps. What its start declares is in scope up to its end.
    #[cycle(body_misreads)]
    pub(crate) fn note_for(
        &self,
        misreads: &mut Misreads,
        locals: &mut BodyLocals<'a>,
        start: &'a IForStart,
        test: &'a Option<IExpr>,
        steps: &'a [IExpr],
        body: &'a IBlock,
    ) -> Result<(), OutOfMemory>
        requires { IsReadAt (P.writer self.now.places.now) self.now.place }
        ensures { let writer = P.writer self.now.places.now in OnOk result (NotedOn writer
            (in_own_block (for_parts writer start.now test.now steps.now body.now))
            (locals_of locals.old) misreads.old (locals_of locals.new) misreads.new) }
    {
        let mark = locals.mark();
        self.note_for_parts(misreads, locals, start, test, steps, body)?;
        locals.end_block(mark);
        Ok(())
    }

    /// Notes the names of the parts of a `for`. What its start declares is still in scope after them.
    #[cycle(body_misreads)]
    fn note_for_parts(
        &self,
        misreads: &mut Misreads,
        locals: &mut BodyLocals<'a>,
        start: &'a IForStart,
        test: &'a Option<IExpr>,
        steps: &'a [IExpr],
        body: &'a IBlock,
    ) -> Result<(), OutOfMemory>
        requires { IsReadAt (P.writer self.now.places.now) self.now.place }
        ensures { let writer = P.writer self.now.places.now in OnOk result (NotedOn writer
            (for_parts writer start.now test.now steps.now body.now)
            (locals_of locals.old) misreads.old (locals_of locals.new) misreads.new) }
    {
        self.note_start(misreads, locals, start)?;
        self.note_for_rest(misreads, locals, test, steps, body)
    }

    /// Notes the names of the test, the steps and the body of a `for`.
    #[cycle(body_misreads)]
    fn note_for_rest(
        &self,
        misreads: &mut Misreads,
        locals: &mut BodyLocals<'a>,
        test: &'a Option<IExpr>,
        steps: &'a [IExpr],
        body: &'a IBlock,
    ) -> Result<(), OutOfMemory>
        requires { IsReadAt (P.writer self.now.places.now) self.now.place }
        ensures { let writer = P.writer self.now.places.now in OnOk result (NotedOn writer
            (for_rest writer test.now steps.now body.now)
            (locals_of locals.old) misreads.old (locals_of locals.new) misreads.new) }
    {
        self.note_test_and_steps(misreads, locals, test, steps)?;
        self.note_block(misreads, locals, body)
    }

    /// Notes the names of a `for` over the items of a value.
    #[cycle(body_misreads)]
    pub(crate) fn note_each(
        &self,
        misreads: &mut Misreads,
        locals: &mut BodyLocals<'a>,
        ty: &'a IType,
        name: &'a Text,
        e: &'a IExpr,
        body: &'a IBlock,
    ) -> Result<(), OutOfMemory>
        requires { IsReadAt (P.writer self.now.places.now) self.now.place }
        ensures { let writer = P.writer self.now.places.now in OnOk result (NotedOn writer
            (each_parts writer ty.now name.now e.now body.now)
            (locals_of locals.old) misreads.old (locals_of locals.new) misreads.new) }
    {
        self.note_typed(misreads, locals, ty, e)?;
        self.note_each_body(misreads, locals, ty, name, body)
    }

    /// Notes the names of the body of a `for` over the items of a value. The local is in scope in it alone.
    #[cycle(body_misreads)]
    fn note_each_body(
        &self,
        misreads: &mut Misreads,
        locals: &mut BodyLocals<'a>,
        ty: &'a IType,
        name: &'a Text,
        body: &'a IBlock,
    ) -> Result<(), OutOfMemory>
        requires { IsReadAt (P.writer self.now.places.now) self.now.place }
        ensures { let writer = P.writer self.now.places.now in OnOk result (NotedOn writer
            (each_body writer (seen ty.now) name.now (spelled_block writer body.now))
            (locals_of locals.old) misreads.old (locals_of locals.new) misreads.new) }
    {
        let mark = locals.mark();
        locals.declare(name, ty)?;
        self.note_block(misreads, locals, body)?;
        locals.end_block(mark);
        Ok(())
    }
}
