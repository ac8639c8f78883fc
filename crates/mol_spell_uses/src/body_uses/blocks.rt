//! Blocks and statements.
ghost use Rattle.std.specs.Prelude.{OnOk};
ghost use Rattle.mol_spell_places.specs.body_locals.Kept.{locals_of};
ghost use Rattle.mol_spell_places.specs.body_places.Statements.{node_spelling, statements_spelling};
ghost use Rattle.mol_spell_uses.specs.body_uses.UsesOn.{UsesOn};
ghost use Rattle.mol_spell_rules.specs.SpelledStatements.{spelled_block};

use crate::body_uses::body_uses::BodyUses;
use crate::uses::Uses;
use mol_base::OutOfMemory;
use mol_spell_places::{BodyLocals, Places};
use mol_values_types::{IBlock, IStmt, IStmtNode};

impl<P: Places> BodyUses<'_, P> {
    /// Adds what a block uses. What it declares is in scope up to its end.
    #[cycle(body_uses)]
    pub(crate) fn add_block<'a>(
        &self,
        uses: &mut Uses,
        locals: &mut BodyLocals<'a>,
        block: &'a IBlock,
    ) -> Result<(), OutOfMemory>
        ensures { OnOk result (UsesOn (spelled_block (P.writer self.now.places.now) block.now)
            (locals_of locals.old) uses.old (locals_of locals.new) uses.new) }
    {
        let mark = locals.mark();
        self.add_statements(uses, locals, block.items.items())?;
        locals.end_block(mark);
        Ok(())
    }

    /// Adds what statements use, one after the other.
    #[cycle(body_uses)]
    fn add_statements<'a>(
        &self,
        uses: &mut Uses,
        locals: &mut BodyLocals<'a>,
        items: &'a [IStmt],
    ) -> Result<(), OutOfMemory>
        ensures { OnOk result (UsesOn (statements_spelling (P.writer self.now.places.now) items.now)
            (locals_of locals.old) uses.old (locals_of locals.new) uses.new) }
    {
        for item in items {
            self.add_node(uses, locals, &item.node)?;
        }
        Ok(())
    }

    /// Adds what a statement uses.
    #[cycle(body_uses)]
    fn add_node<'a>(
        &self,
        uses: &mut Uses,
        locals: &mut BodyLocals<'a>,
        node: &'a IStmtNode,
    ) -> Result<(), OutOfMemory>
        ensures { OnOk result (UsesOn (node_spelling (P.writer self.now.places.now) node.now)
            (locals_of locals.old) uses.old (locals_of locals.new) uses.new) }
    {
        match node {
            IStmtNode::Block(inner) => self.add_block(uses, locals, inner),
            IStmtNode::Let(declared) => self.add_let(uses, locals, declared),
            IStmtNode::Do(e) => self.add_expr(uses, locals, e),
            IStmtNode::If(branch) => self.add_if(uses, locals, branch),
            IStmtNode::While(test, body) => self.add_tested(uses, locals, test, body),
            IStmtNode::For(start, test, steps, body) => {
                self.add_for(uses, locals, start, test, steps.items(), body)
            },
            IStmtNode::Each(_, ty, name, e, body) => {
                self.add_each(uses, locals, ty, name, e, body)
            },
            IStmtNode::Return(e) => self.add_maybe(uses, locals, e),
            IStmtNode::Throw(e) => self.add_expr(uses, locals, e),
            IStmtNode::Break => Ok(()),
            IStmtNode::Continue => Ok(()),
            IStmtNode::Empty => Ok(()),
            IStmtNode::Super(_, args) => self.add_arguments(uses, locals, args.items()),
            IStmtNode::SuperDefault(_) => Ok(()),
            IStmtNode::SuperOutside(args) => self.add_all(uses, locals, args.items()),
        }
    }
}
