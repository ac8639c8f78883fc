//! `if` and what follows `else` (JLS 14.9).
ghost use Rattle.std.specs.Prelude.{◌≡◌, IfOk, IsOkAnd};
ghost use Rattle.mol_spell_body.specs.GoesOn.{GoesOn};
ghost use Rattle.mol_spell_body.specs.Made as made;
ghost use Rattle.mol_spell_places.specs.body_places.Statements.{else_spelling, if_spelling};
ghost use Rattle.mol_spell_places.specs.body_locals.Kept.{locals_of};
ghost use Rattle.mol_spell_rules.specs.SpelledStatements.{spelled_block, then_next};

use crate::body_writer::BodyWriter;
use jav_tree::{Block, Else, Expr, Stmt, StmtNode};
use mol_base::{Boxed, List, OutOfMemory};
use mol_spell_places::{BodyLocals, Places};
use mol_values_types::{IBlock, IElse, IIf};
use std::alloc::Global;

/// The branch of an `if`, and what follows it.
#[derive(Drop)]
struct BothBranches {
    then: Block,
    rest: Else,
}

impl BothBranches {
    /// The `if` of this test. It takes no memory.
    fn with_test(self, test: Expr) -> StmtNode
        ensures { result ≡ made.branches ((test, self.then), self.rest) }
    {
        let BothBranches { then, rest } = self;
        StmtNode::If(test, then, rest)
    }
}

impl<P: Places> BodyWriter<'_, P> {
    /// An `if`.
    #[cycle(write_stmt)]
    pub(crate) fn branches<'a>(
        &self,
        locals: &mut BodyLocals<'a>,
        branch: &'a IIf,
    ) -> Result<StmtNode, OutOfMemory>
        ensures { IfOk result (λ tree. GoesOn (if_spelling (P.writer self.now.places.now) branch.now) tree
            (locals_of locals.old) (locals_of locals.new)) }
    {
        let test = self.expr(locals, &branch.test)?;
        if_of(test, self.inner(locals, &branch.then, &branch.rest))
    }

    /// The branch of an `if`, and what follows it.
    #[cycle(write_stmt)]
    fn inner<'a>(
        &self,
        locals: &mut BodyLocals<'a>,
        then: &'a IBlock,
        rest: &'a IElse,
    ) -> Result<BothBranches, OutOfMemory>
        ensures { let writer = P.writer self.now.places.now in IfOk result (λ trees. GoesOn
            (λ locals. then_next (spelled_block writer then.now locals) (else_spelling writer rest.now)) (trees.then, trees.rest)
            (locals_of locals.old) (locals_of locals.new)) }
    {
        let then = self.block(locals, then)?;
        branches_of(then, self.else_part(locals, rest))
    }

    /// What follows `else`.
    #[cycle(write_stmt)]
    fn else_part<'a>(
        &self,
        locals: &mut BodyLocals<'a>,
        rest: &'a IElse,
    ) -> Result<Else, OutOfMemory>
        ensures { IfOk result (λ tree. GoesOn (else_spelling (P.writer self.now.places.now) rest.now) tree
            (locals_of locals.old) (locals_of locals.new)) }
    {
        match rest {
            IElse::None => Ok(Else::None),
            IElse::Block(inner) => Ok(Else::Block(self.block(locals, inner)?)),
            IElse::If(branch) => {
                let node = self.branches(locals, branch.get())?;
                else_if(self.alloc, node)
            },
        }
    }
}

/// The branch, and what was written after it.
fn branches_of(then: Block, rest: Result<Else, OutOfMemory>) -> Result<BothBranches, OutOfMemory>
    ensures { IfOk result (λ trees. IsOkAnd rest (λ rest. trees ≡ record { then = then; rest = rest })) }
{
    let rest = rest?;
    Ok(BothBranches { then, rest })
}

/// The `if` of this test, and of the branches that were written after it.
fn if_of(test: Expr, branches: Result<BothBranches, OutOfMemory>) -> Result<StmtNode, OutOfMemory>
    ensures { IfOk result (λ tree. IsOkAnd branches (λ branches. tree ≡ made.branches ((test, branches.then), branches.rest))) }
{
    let branches = branches?;
    Ok(branches.with_test(test))
}

/// An `if` after `else`.
fn else_if(alloc: Global, node: StmtNode) -> Result<Else, OutOfMemory>
    ensures { IfOk result (λ tree. tree ≡ made.else_if node) }
{
    let notes = List::new(alloc);
    let statement = Boxed::new(alloc, Stmt { notes, at: 0, node })?;
    Ok(Else::If(statement))
}
