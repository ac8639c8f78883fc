//! `if` and what follows `else` (JLS 14.9).
ghost use Rattle.std.specs.Prelude.{OnOk};
ghost use Rattle.mol_spell_places.specs.body_locals.Kept.{locals_of};
ghost use Rattle.mol_faults_misread.specs.body_misreads.CellPlaces.{IsReadAt};
ghost use Rattle.mol_faults_misread.specs.body_misreads.NotedOn.{NotedOn};
ghost use Rattle.mol_spell_places.specs.body_places.Statements.{else_spelling, if_spelling};
ghost use Rattle.mol_spell_rules.specs.SpelledStatements.{one_expr, spelled_block, then_next};

use crate::body_misreads::body_reader::BodyReader;
use mol_base::OutOfMemory;
use mol_faults_expr::Misreads;
use mol_spell_places::{BodyLocals, Places};
use mol_values_types::{IBlock, IElse, IExpr, IIf};

impl<'a, P: Places> BodyReader<'a, '_, P> {
    /// Notes the names of an `if`.
    #[cycle(body_misreads)]
    pub(crate) fn note_if(
        &self,
        misreads: &mut Misreads,
        locals: &mut BodyLocals<'a>,
        branch: &'a IIf,
    ) -> Result<(), OutOfMemory>
        requires { IsReadAt (P.writer self.now.places.now) self.now.place }
        ensures { let writer = P.writer self.now.places.now in OnOk result (NotedOn writer (if_spelling writer branch.now)
            (locals_of locals.old) misreads.old (locals_of locals.new) misreads.new) }
    {
        self.note_tested(misreads, locals, &branch.test, &branch.then)?;
        self.note_else(misreads, locals, &branch.rest)
    }

    /// Notes the names of a test and of the block after it.
    #[cycle(body_misreads)]
    pub(crate) fn note_tested(
        &self,
        misreads: &mut Misreads,
        locals: &mut BodyLocals<'a>,
        test: &'a IExpr,
        block: &'a IBlock,
    ) -> Result<(), OutOfMemory>
        requires { IsReadAt (P.writer self.now.places.now) self.now.place }
        ensures { let writer = P.writer self.now.places.now in OnOk result (NotedOn writer
            (λ locals. then_next (one_expr writer test.now locals) (spelled_block writer block.now))
            (locals_of locals.old) misreads.old (locals_of locals.new) misreads.new) }
    {
        self.note_expr(misreads, locals, test)?;
        self.note_block(misreads, locals, block)
    }

    /// Notes the names of what follows `else`.
    #[cycle(body_misreads)]
    fn note_else(
        &self,
        misreads: &mut Misreads,
        locals: &mut BodyLocals<'a>,
        rest: &'a IElse,
    ) -> Result<(), OutOfMemory>
        requires { IsReadAt (P.writer self.now.places.now) self.now.place }
        ensures { let writer = P.writer self.now.places.now in OnOk result (NotedOn writer (else_spelling writer rest.now)
            (locals_of locals.old) misreads.old (locals_of locals.new) misreads.new) }
    {
        match rest {
            IElse::None => Ok(()),
            IElse::Block(inner) => self.note_block(misreads, locals, inner),
            IElse::If(branch) => self.note_if(misreads, locals, branch.get()),
        }
    }
}
