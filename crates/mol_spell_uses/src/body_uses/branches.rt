//! `if` and what follows `else` (JLS 14.9).
ghost use Rattle.std.specs.Prelude.{OnOk};
ghost use Rattle.mol_spell_places.specs.body_locals.Kept.{locals_of};
ghost use Rattle.mol_spell_places.specs.body_places.Statements.{else_spelling, if_spelling};
ghost use Rattle.mol_spell_uses.specs.body_uses.UsesOn.{UsesOn};
ghost use Rattle.mol_spell_rules.specs.SpelledStatements.{one_expr, spelled_block, then_next};

use crate::body_uses::body_uses::BodyUses;
use crate::uses::Uses;
use mol_base::OutOfMemory;
use mol_spell_places::{BodyLocals, Places};
use mol_values_types::{IBlock, IElse, IExpr, IIf};

impl<P: Places> BodyUses<'_, P> {
    /// Adds what an `if` uses.
    #[cycle(body_uses)]
    pub(crate) fn add_if<'a>(
        &self,
        uses: &mut Uses,
        locals: &mut BodyLocals<'a>,
        branch: &'a IIf,
    ) -> Result<(), OutOfMemory>
        ensures { OnOk result (UsesOn (if_spelling (P.writer self.now.places.now) branch.now)
            (locals_of locals.old) uses.old (locals_of locals.new) uses.new) }
    {
        self.add_tested(uses, locals, &branch.test, &branch.then)?;
        self.add_else(uses, locals, &branch.rest)
    }

    /// Adds what a test and the block after it use.
    #[cycle(body_uses)]
    pub(crate) fn add_tested<'a>(
        &self,
        uses: &mut Uses,
        locals: &mut BodyLocals<'a>,
        test: &IExpr,
        block: &'a IBlock,
    ) -> Result<(), OutOfMemory>
        ensures { let writer = P.writer self.now.places.now in OnOk result (UsesOn
            (λ locals. then_next (one_expr writer test.now locals) (spelled_block writer block.now))
            (locals_of locals.old) uses.old (locals_of locals.new) uses.new) }
    {
        self.add_expr(uses, locals, test)?;
        self.add_block(uses, locals, block)
    }

    /// Adds what follows `else` uses.
    #[cycle(body_uses)]
    fn add_else<'a>(
        &self,
        uses: &mut Uses,
        locals: &mut BodyLocals<'a>,
        rest: &'a IElse,
    ) -> Result<(), OutOfMemory>
        ensures { OnOk result (UsesOn (else_spelling (P.writer self.now.places.now) rest.now)
            (locals_of locals.old) uses.old (locals_of locals.new) uses.new) }
    {
        match rest {
            IElse::None => Ok(()),
            IElse::Block(inner) => self.add_block(uses, locals, inner),
            IElse::If(branch) => self.add_if(uses, locals, branch.get()),
        }
    }
}
