//! Blocks and statements.
ghost use Rattle.std.specs.Prelude.{OnOk};
ghost use Rattle.mol_spell_places.specs.body_locals.Kept.{locals_of};
ghost use Rattle.mol_faults_misread.specs.body_misreads.CellPlaces.{IsReadAt};
ghost use Rattle.mol_faults_misread.specs.body_misreads.NotedOn.{NotedOn};
ghost use Rattle.mol_spell_places.specs.body_places.Statements.{node_spelling, statements_spelling};
ghost use Rattle.mol_spell_rules.specs.SpelledStatements.{spelled_block};

use crate::body_misreads::body_reader::BodyReader;
use mol_base::OutOfMemory;
use mol_faults_expr::Misreads;
use mol_spell_places::{BodyLocals, Places};
use mol_values_types::{IBlock, IStmt, IStmtNode};

impl<'a, P: Places> BodyReader<'a, '_, P> {
    /// Notes the names of a block. What it declares is in scope up to its end.
    #[cycle(body_misreads)]
    pub(crate) fn note_block(
        &self,
        misreads: &mut Misreads,
        locals: &mut BodyLocals<'a>,
        block: &'a IBlock,
    ) -> Result<(), OutOfMemory>
        requires { IsReadAt (P.writer self.now.places.now) self.now.place }
        ensures { let writer = P.writer self.now.places.now in OnOk result (NotedOn writer (spelled_block writer block.now)
            (locals_of locals.old) misreads.old (locals_of locals.new) misreads.new) }
    {
        let mark = locals.mark();
        self.note_statements(misreads, locals, block.items.items())?;
        locals.end_block(mark);
        Ok(())
    }

    /// Notes the names of statements, one after the other.
    #[cycle(body_misreads)]
    fn note_statements(
        &self,
        misreads: &mut Misreads,
        locals: &mut BodyLocals<'a>,
        items: &'a [IStmt],
    ) -> Result<(), OutOfMemory>
        requires { IsReadAt (P.writer self.now.places.now) self.now.place }
        ensures { let writer = P.writer self.now.places.now in OnOk result (NotedOn writer (statements_spelling writer items.now)
            (locals_of locals.old) misreads.old (locals_of locals.new) misreads.new) }
    {
        for item in items {
            self.note_node(misreads, locals, &item.node)?;
        }
        Ok(())
    }

    /// Notes the names of a statement.
    #[cycle(body_misreads)]
    fn note_node(
        &self,
        misreads: &mut Misreads,
        locals: &mut BodyLocals<'a>,
        node: &'a IStmtNode,
    ) -> Result<(), OutOfMemory>
        requires { IsReadAt (P.writer self.now.places.now) self.now.place }
        ensures { let writer = P.writer self.now.places.now in OnOk result (NotedOn writer (node_spelling writer node.now)
            (locals_of locals.old) misreads.old (locals_of locals.new) misreads.new) }
    {
        match node {
            IStmtNode::Block(inner) => self.note_block(misreads, locals, inner),
            IStmtNode::Let(declared) => self.note_let(misreads, locals, declared),
            IStmtNode::Do(e) => self.note_expr(misreads, locals, e),
            IStmtNode::If(branch) => self.note_if(misreads, locals, branch),
            IStmtNode::While(test, body) => self.note_tested(misreads, locals, test, body),
            IStmtNode::For(start, test, steps, body) => {
                self.note_for(misreads, locals, start, test, steps.items(), body)
            },
            IStmtNode::Each(_, ty, name, e, body) => {
                self.note_each(misreads, locals, ty, name, e, body)
            },
            IStmtNode::Return(e) => self.note_maybe(misreads, locals, e),
            IStmtNode::Throw(e) => self.note_expr(misreads, locals, e),
            IStmtNode::Break => Ok(()),
            IStmtNode::Continue => Ok(()),
            IStmtNode::Empty => Ok(()),
            IStmtNode::Super(constructor, args) => {
                self.note_super(misreads, locals, constructor, args.items())
            },
            IStmtNode::SuperDefault(class) => self.note_super_default(misreads, locals, class),
            IStmtNode::SuperOutside(args) => {
                self.note_super_outside(misreads, locals, args.items())
            },
        }
    }
}
