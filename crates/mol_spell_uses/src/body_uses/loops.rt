//! `for`, by a start, a test and steps, and over the items of a value (JLS 14.14).
ghost use Rattle.std.specs.Prelude.{OnOk};
ghost use Rattle.mol_spell_places.specs.body_locals.Kept.{locals_of};
ghost use Rattle.mol_spell_uses.specs.body_uses.Loops.{each_parts, for_parts, for_rest, in_own_block};
ghost use Rattle.mol_spell_uses.specs.body_uses.UsesOn.{UsesOn};
ghost use Rattle.mol_resolve_rules.specs.ProgramViews.{seen};
ghost use Rattle.mol_spell_rules.specs.SpelledStatements.{each_body, spelled_block};

use crate::body_uses::body_uses::BodyUses;
use crate::uses::Uses;
use mol_base::{OutOfMemory, Text};
use mol_spell_places::{BodyLocals, Places};
use mol_values_types::{IBlock, IExpr, IForStart, IType};

impl<P: Places> BodyUses<'_, P> {
    /// Adds what a `for` with a start, a test and steps uses. What its start declares is in scope up to its end.
    #[cycle(body_uses)]
    pub(crate) fn add_for<'a>(
        &self,
        uses: &mut Uses,
        locals: &mut BodyLocals<'a>,
        start: &'a IForStart,
        test: &Option<IExpr>,
        steps: &[IExpr],
        body: &'a IBlock,
    ) -> Result<(), OutOfMemory>
        ensures { OnOk result (UsesOn (in_own_block (for_parts (P.writer self.now.places.now) start.now test.now steps.now body.now))
            (locals_of locals.old) uses.old (locals_of locals.new) uses.new) }
    {
        let mark = locals.mark();
        self.add_for_parts(uses, locals, start, test, steps, body)?;
        locals.end_block(mark);
        Ok(())
    }

    /// Adds what the parts of a `for` use. What its start declares is still in scope after them.
    #[cycle(body_uses)]
    fn add_for_parts<'a>(
        &self,
        uses: &mut Uses,
        locals: &mut BodyLocals<'a>,
        start: &'a IForStart,
        test: &Option<IExpr>,
        steps: &[IExpr],
        body: &'a IBlock,
    ) -> Result<(), OutOfMemory>
        ensures { OnOk result (UsesOn (for_parts (P.writer self.now.places.now) start.now test.now steps.now body.now)
            (locals_of locals.old) uses.old (locals_of locals.new) uses.new) }
    {
        self.add_start(uses, locals, start)?;
        self.add_for_rest(uses, locals, test, steps, body)
    }

    /// Adds what the test, the steps and the body of a `for` use.
    #[cycle(body_uses)]
    fn add_for_rest<'a>(
        &self,
        uses: &mut Uses,
        locals: &mut BodyLocals<'a>,
        test: &Option<IExpr>,
        steps: &[IExpr],
        body: &'a IBlock,
    ) -> Result<(), OutOfMemory>
        ensures { OnOk result (UsesOn (for_rest (P.writer self.now.places.now) test.now steps.now body.now)
            (locals_of locals.old) uses.old (locals_of locals.new) uses.new) }
    {
        self.add_test_and_steps(uses, locals, test, steps)?;
        self.add_block(uses, locals, body)
    }

    /// Adds what a `for` over the items of a value uses.
    #[cycle(body_uses)]
    pub(crate) fn add_each<'a>(
        &self,
        uses: &mut Uses,
        locals: &mut BodyLocals<'a>,
        ty: &'a IType,
        name: &'a Text,
        e: &IExpr,
        body: &'a IBlock,
    ) -> Result<(), OutOfMemory>
        ensures { OnOk result (UsesOn (each_parts (P.writer self.now.places.now) ty.now name.now e.now body.now)
            (locals_of locals.old) uses.old (locals_of locals.new) uses.new) }
    {
        self.add_typed(uses, locals, ty, e)?;
        self.add_each_body(uses, locals, ty, name, body)
    }

    /// Adds what the body of a `for` over the items of a value uses. The local is in scope in it alone.
    #[cycle(body_uses)]
    fn add_each_body<'a>(
        &self,
        uses: &mut Uses,
        locals: &mut BodyLocals<'a>,
        ty: &'a IType,
        name: &'a Text,
        body: &'a IBlock,
    ) -> Result<(), OutOfMemory>
        ensures { let writer = P.writer self.now.places.now in OnOk result (UsesOn
            (each_body writer (seen ty.now) name.now (spelled_block writer body.now))
            (locals_of locals.old) uses.old (locals_of locals.new) uses.new) }
    {
        let mark = locals.mark();
        locals.declare(name, ty)?;
        self.add_block(uses, locals, body)?;
        locals.end_block(mark);
        Ok(())
    }
}
