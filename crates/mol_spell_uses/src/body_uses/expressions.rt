//! Expressions in statements.
ghost use Rattle.std.specs.Prelude.{◌≡◌, ◌++◌, OnOk};
ghost use Rattle.mol_spell_places.specs.body_locals.Kept.{locals_of};
ghost use Rattle.mol_spell_uses.specs.body_uses.PartUses.{declared_uses, maybe_uses};
ghost use Rattle.mol_spell_uses.specs.uses.Uses.{all_uses, argument_uses, expr_uses};

use crate::body_uses::body_uses::BodyUses;
use crate::body_uses::types::add_declared_type;
use crate::uses::{ExprUses, Uses};
use mol_base::OutOfMemory;
use mol_spell_places::{BodyLocals, InBody, Places};
use mol_values_types::{Argument, IExpr, IType};

impl<P: Places> BodyUses<'_, P> {
    /// Adds what an expression uses.
    pub(crate) fn add_expr(
        &self,
        uses: &mut Uses,
        locals: &BodyLocals<'_>,
        e: &IExpr,
    ) -> Result<(), OutOfMemory>
        ensures { OnOk result (uses.new ≡ uses.old ++ expr_uses (P.writer self.now.places.now) (locals_of locals.now) e.now) }
    {
        let names = InBody {
            places: self.places,
            locals,
        };
        ExprUses { names: &names }.add_expr(uses, e)
    }

    /// Adds what expressions use, one after the other.
    pub(crate) fn add_all(
        &self,
        uses: &mut Uses,
        locals: &BodyLocals<'_>,
        items: &[IExpr],
    ) -> Result<(), OutOfMemory>
        ensures { OnOk result (uses.new ≡ uses.old ++ all_uses (P.writer self.now.places.now) (locals_of locals.now) items.now) }
    {
        let names = InBody {
            places: self.places,
            locals,
        };
        ExprUses { names: &names }.add_all(uses, items)
    }

    /// Adds what the values of arguments use, one after the other.
    pub(crate) fn add_arguments(
        &self,
        uses: &mut Uses,
        locals: &BodyLocals<'_>,
        args: &[Argument],
    ) -> Result<(), OutOfMemory>
        ensures { OnOk result (uses.new ≡ uses.old ++ argument_uses (P.writer self.now.places.now) (locals_of locals.now) args.now) }
    {
        let names = InBody {
            places: self.places,
            locals,
        };
        ExprUses { names: &names }.add_arguments(uses, args)
    }

    /// Adds what an expression uses, if there is one.
    pub(crate) fn add_maybe(
        &self,
        uses: &mut Uses,
        locals: &BodyLocals<'_>,
        e: &Option<IExpr>,
    ) -> Result<(), OutOfMemory>
        ensures { OnOk result (uses.new ≡ uses.old ++ maybe_uses (P.writer self.now.places.now) (locals_of locals.now) e.now) }
    {
        match e {
            Some(e) => self.add_expr(uses, locals, e),
            None => Ok(()),
        }
    }

    /// Adds what the type of a declaration and an expression use.
    pub(crate) fn add_typed(
        &self,
        uses: &mut Uses,
        locals: &BodyLocals<'_>,
        ty: &IType,
        e: &IExpr,
    ) -> Result<(), OutOfMemory>
        ensures { let writer = P.writer self.now.places.now in
            let locals = locals_of locals.now in
            OnOk result (uses.new ≡ uses.old ++ (declared_uses writer locals ty.now ++ expr_uses writer locals e.now)) }
    {
        add_declared_type(uses, ty)?;
        self.add_expr(uses, locals, e)
    }

    /// Adds what the test and the steps of a `for` use.
    pub(crate) fn add_test_and_steps(
        &self,
        uses: &mut Uses,
        locals: &BodyLocals<'_>,
        test: &Option<IExpr>,
        steps: &[IExpr],
    ) -> Result<(), OutOfMemory>
        ensures { let writer = P.writer self.now.places.now in
            let locals = locals_of locals.now in
            OnOk result (uses.new ≡ uses.old ++ (maybe_uses writer locals test.now ++ all_uses writer locals steps.now)) }
    {
        self.add_maybe(uses, locals, test)?;
        self.add_all(uses, locals, steps)
    }
}
