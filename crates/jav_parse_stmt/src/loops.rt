//! `while` and `for` (JLS 14.12, 14.14).
ghost use Rattle.std.specs.Prelude.{◌≡◌, ◌<◌, ◌≤◌, ◌-◌, IfOk};
ghost use Rattle.jav_parse_expr.specs.Nests.{IsLimited};
ghost use Rattle.jav_parse_stmt.specs.NestsStmt.{NestsStmt, at_height};
ghost use Rattle.jav_parse_cursor.specs.Reads.{Reads};
ghost use Rattle.jav_parse_stmt.specs.StmtRules as spec;

use crate::flow::{HeaderPart, Maybe, block_of, for_test, header, updates};
use crate::simple::condition;
use crate::stmt::{Place, Rules};
use crate::stmt_tall::TallStmt;
use jav_parse_cursor::limits::Limits;
use jav_parse_cursor::sort::Sort;
use jav_parse_cursor::stop::Stop;
use jav_parse_cursor::tall::Listed;
use jav_parse_cursor::tokens::Tokens;
use jav_parse_expr::expr::expr;
use jav_parse_expr::primary::Goal;
use jav_tree::{ForStart, StmtNode, TypeName};
use mol_base::{Boxed, List, OutOfMemory, Text};

/// What stands in the header of a `for` before its second semicolon, and the height of its first part.
#[derive(Drop)]
struct ForFront {
    start: Boxed<ForStart>,
    height: usize,
    test: Maybe,
}

/// A statement that ends in a loop body, from all of it but the body's comments and openness.
fn looped(
    limits: Limits,
    at: u32,
    node: StmtNode,
    height: usize,
    is_open: bool,
    after: List<Text>,
) -> Result<TallStmt, OutOfMemory>
    ensures { IfOk result (λ y. y ≡ record { at = at; node = node; height = height; is_open = is_open; after = after }) }
{
    Ok(TallStmt {
        at,
        node: Boxed::new(limits.alloc, node)?,
        height,
        is_open,
        after,
    })
}

impl<F: Copy + Fn(Limits, &mut Tokens<'_>, usize, Place) -> Result<TallStmt, Stop>> Rules<F> {
    #[tactic(auto, unfolding(crate::specs::StmtRules::while_stmt))]
    pub fn while_stmt(&self, tokens: &mut Tokens<'_>) -> Result<TallStmt, Stop>
        requires nests { NestsStmt self.now.limits self.now.top (F.pre self.now.stmt) (F.post self.now.stmt) }
        requires limited { IsLimited self.now.limits self.now.top }
        requires some { 0 < self.now.top }
        ensures reads { Reads (at_height spec.while_stmt self.now.limits self.now.top tokens.old) result tokens.new }
        ensures low { IfOk result (λ x. x.height ≤ self.now.top) }
    {
        if self.top <= 1 {
            return Err(Stop::Bad);
        }
        let at = tokens.take()?.start;
        let test = condition(self.limits, tokens, self.top - 1)?;
        let body = self.branch(tokens, Place::Branch)?;
        let height = test.height.max(body.height) + 1;
        let block = block_of(body.items, body.tail);
        let node = StmtNode::While(test.expr.into_inner(), block);
        Ok(looped(self.limits, at, node, height, body.is_open, body.after)?)
    }

    /// The body of a `for`, after its header.
    #[tactic(auto, unfolding(crate::specs::StmtRules::counted_body))]
    fn counted_body(
        &self,
        tokens: &mut Tokens<'_>,
        at: u32,
        front: ForFront,
        updates: Listed,
    ) -> Result<TallStmt, Stop>
        requires nests { NestsStmt self.now.limits self.now.top (F.pre self.now.stmt) (F.post self.now.stmt) }
        requires limited { IsLimited self.now.limits self.now.top }
        requires more { 1 < self.now.top }
        requires height { front.height < self.now.top }
        requires test_height { front.test.height < self.now.top }
        requires updates_height { updates.height < self.now.top }
        ensures reads { Reads (at_height spec.counted_body self.now.limits self.now.top at front.start front.height front.test updates tokens.old) result tokens.new }
        ensures low { IfOk result (λ x. x.height ≤ self.now.top) }
    {
        let body = self.branch(tokens, Place::Branch)?;
        let ForFront {
            start,
            height,
            test,
        } = front;
        let inner = test.height.max(updates.height.max(body.height));
        let block = block_of(body.items, body.tail);
        let test = test.expr.map(Boxed::into_inner);
        let node = StmtNode::For(start.into_inner(), test, updates.exprs, block);
        let height = height.max(inner) + 1;
        Ok(looped(self.limits, at, node, height, body.is_open, body.after)?)
    }

    /// The rest of a `for` from its second semicolon on.
    fn counted_after(
        &self,
        tokens: &mut Tokens<'_>,
        at: u32,
        front: ForFront,
    ) -> Result<TallStmt, Stop>
        requires nests { NestsStmt self.now.limits self.now.top (F.pre self.now.stmt) (F.post self.now.stmt) }
        requires limited { IsLimited self.now.limits self.now.top }
        requires more { 1 < self.now.top }
        requires height { front.height < self.now.top }
        requires test_height { front.test.height < self.now.top }
        ensures reads { Reads (at_height spec.counted_after self.now.limits self.now.top at front.start front.height front.test tokens.old) result tokens.new }
        ensures low { IfOk result (λ x. x.height ≤ self.now.top) }
    {
        tokens.expect(Sort::Semi)?;
        let updates = updates(self.limits, tokens, self.top - 1)?;
        tokens.expect(Sort::Close)?;
        self.counted_body(tokens, at, front, updates)
    }

    /// The rest of a `for` before its first semicolon.
    #[tactic(auto, unfolding(crate::specs::StmtRules::counted))]
    fn counted(
        &self,
        tokens: &mut Tokens<'_>,
        at: u32,
        start: Boxed<ForStart>,
        height: usize,
    ) -> Result<TallStmt, Stop>
        requires nests { NestsStmt self.now.limits self.now.top (F.pre self.now.stmt) (F.post self.now.stmt) }
        requires limited { IsLimited self.now.limits self.now.top }
        requires more { 1 < self.now.top }
        requires height { height < self.now.top }
        ensures reads { Reads (at_height spec.counted self.now.limits self.now.top at start height tokens.old) result tokens.new }
        ensures low { IfOk result (λ x. x.height ≤ self.now.top) }
    {
        tokens.expect(Sort::Semi)?;
        let test = for_test(self.limits, tokens, self.top - 1)?;
        let front = ForFront {
            start,
            height,
            test,
        };
        self.counted_after(tokens, at, front)
    }

    /// The rest of a `for` over the items of a value, before its colon.
    #[tactic(auto, unfolding(crate::specs::StmtRules::each))]
    fn each(
        &self,
        tokens: &mut Tokens<'_>,
        at: u32,
        is_final: bool,
        ty: TypeName,
        name: Text,
    ) -> Result<TallStmt, Stop>
        requires nests { NestsStmt self.now.limits self.now.top (F.pre self.now.stmt) (F.post self.now.stmt) }
        requires limited { IsLimited self.now.limits self.now.top }
        requires more { 1 < self.now.top }
        ensures reads { Reads (at_height spec.each self.now.limits self.now.top at is_final ty name tokens.old) result tokens.new }
        ensures low { IfOk result (λ x. x.height ≤ self.now.top) }
    {
        tokens.expect(Sort::Colon)?;
        let x = expr(self.limits, tokens, self.top - 1, Goal::Level(1))?;
        tokens.expect(Sort::Close)?;
        let body = self.branch(tokens, Place::Branch)?;
        let height = x.height.max(body.height) + 1;
        let block = block_of(body.items, body.tail);
        let node = StmtNode::Each(is_final, ty, name, x.expr.into_inner(), block);
        Ok(looped(self.limits, at, node, height, body.is_open, body.after)?)
    }

    #[tactic(auto, unfolding(crate::specs::StmtRules::for_stmt))]
    pub fn for_stmt(&self, tokens: &mut Tokens<'_>) -> Result<TallStmt, Stop>
        requires nests { NestsStmt self.now.limits self.now.top (F.pre self.now.stmt) (F.post self.now.stmt) }
        requires limited { IsLimited self.now.limits self.now.top }
        requires some { 0 < self.now.top }
        ensures reads { Reads (at_height spec.for_stmt self.now.limits self.now.top tokens.old) result tokens.new }
        ensures low { IfOk result (λ x. x.height ≤ self.now.top) }
    {
        if self.top <= 1 {
            return Err(Stop::Bad);
        }
        let at = tokens.take()?.start;
        tokens.expect(Sort::Open)?;
        match header(self.limits, tokens, self.top - 1)? {
            HeaderPart::Start(start, height) => self.counted(tokens, at, start, height),
            HeaderPart::Each(is_final, ty, name) => self.each(tokens, at, is_final, ty, name),
        }
    }
}
