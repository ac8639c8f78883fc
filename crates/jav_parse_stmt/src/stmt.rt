//! Blocks and statements (JLS 14).
//!
//! The rules take the parser of the statements inside as a parameter, so that each is proved by itself.
ghost use Rattle.std.specs.Prelude.{◌≡◌, ◌<◌, ◌≤◌, ◌+◌, ◌-◌, ◌^◌, IfOk};
ghost use Rattle.jav_parse_expr.specs.Nests.{IsLimited};
ghost use Rattle.jav_parse_stmt.specs.NestsStmt.{NestsStmt, at_height};
ghost use Rattle.jav_parse_cursor.specs.Reads.{Reads};
ghost use Rattle.jav_parse_stmt.specs.StmtRules as spec;
ghost use Rattle.jav_parse_stmt.specs.declared.stmt.Place.TheVariants.{Item};

use crate::simple::{
    empty_stmt, expression, local, named, return_stmt, super_first, throw_stmt, word_stmt,
};
use crate::stmt_tall::{TallBlock, TallStmt, closed, wrapped};
use jav_parse_cursor::limits::Limits;
use jav_parse_cursor::sort::Sort;
use jav_parse_cursor::stop::Stop;
use jav_parse_cursor::tokens::Tokens;
use jav_tree::{Block, Stmt, StmtNode};
use mol_base::{List, OutOfMemory, Text};

/// Where a statement stands.
#[derive(Clone, Copy)]
pub enum Place {
    /// In a block.
    Item,
    /// A branch or loop body without braces.
    Branch,
    /// The same after `else`, where it is no `if`.
    Plain,
    /// Right after `else`, where it is an `if`.
    Chain,
}

/// The rules for statements of at most one height.
#[derive(Clone, Copy)]
pub struct Rules<F> {
    pub limits: Limits,
    /// The greatest height.
    pub top: usize,
    pub stmt: F,
}

/// Statements that were read, and the comments that are to stand before the next one.
#[derive(Drop)]
pub struct Several {
    pub items: List<Stmt>,
    pub height: usize,
    pub notes: List<Text>,
}

pub fn nothing(limits: Limits, notes: List<Text>) -> Several
    ensures { result ≡ spec.nothing notes }
{
    Several {
        items: List::new(limits.alloc),
        height: 0,
        notes,
    }
}

/// The statements and one more, with comments before it.
fn added(
    before: List<Stmt>,
    height: usize,
    notes: List<Text>,
    stmt: TallStmt,
) -> Result<Several, OutOfMemory>
    ensures { IfOk result (λ y. y ≡ spec.added_to before height notes stmt) }
{
    let mut items = before;
    let own = stmt.height;
    items.add(Stmt {
        notes,
        at: stmt.at,
        node: stmt.node.into_inner(),
    })?;
    Ok(Several {
        items,
        height: height.max(own),
        notes: stmt.after,
    })
}

/// A block from what was read before its last brace.
fn braced(limits: Limits, items: List<Stmt>, height: usize, tail: List<Text>) -> TallBlock
    requires { height < 2 ^ 63 }
    ensures { result ≡ spec.braced items height tail }
{
    TallBlock {
        items,
        tail,
        height: height + 1,
        is_open: false,
        after: List::new(limits.alloc),
    }
}

impl<F: Copy + Fn(Limits, &mut Tokens<'_>, usize, Place) -> Result<TallStmt, Stop>> Rules<F> {
    /// A statement inside, at most `top` high.
    pub fn nested(
        &self,
        tokens: &mut Tokens<'_>,
        top: usize,
        place: Place,
    ) -> Result<TallStmt, Stop>
        requires nests { NestsStmt self.now.limits self.now.top (F.pre self.now.stmt) (F.post self.now.stmt) }
        requires less { top < self.now.top }
        ensures reads { Reads (spec.stmt self.now.limits top place tokens.old) result tokens.new }
        ensures low { IfOk result (λ x. x.height ≤ top) }
    {
        (self.stmt)(self.limits, tokens, top, place)
    }

    /// A statement of a block, after the comments before it.
    #[tactic(auto, unfolding(crate::specs::StmtRules::next_item))]
    fn next_item(
        &self,
        tokens: &mut Tokens<'_>,
        room: usize,
        items: List<Stmt>,
        height: usize,
        notes: List<Text>,
    ) -> Result<Several, Stop>
        requires nests { NestsStmt self.now.limits self.now.top (F.pre self.now.stmt) (F.post self.now.stmt) }
        requires limited { IsLimited self.now.limits self.now.top }
        requires inside { room < self.now.top }
        requires height { height ≤ room }
        ensures reads { Reads (spec.next_item (spec.stmt self.now.limits room Item) room items height notes tokens.old) result tokens.new }
        ensures low { IfOk result (λ x. x.height ≤ room) }
    {
        if room == 0 {
            return Err(Stop::Bad);
        }
        let stmt = self.nested(tokens, room, Place::Item)?;
        Ok(added(items, height, notes, stmt)?)
    }

    /// Statements up to the last brace of their block, each at most `room` high.
    fn statements(
        &self,
        tokens: &mut Tokens<'_>,
        room: usize,
        before: Several,
    ) -> Result<TallBlock, Stop>
        requires nests { NestsStmt self.now.limits self.now.top (F.pre self.now.stmt) (F.post self.now.stmt) }
        requires limited { IsLimited self.now.limits self.now.top }
        requires inside { room < self.now.top }
        requires height { before.height ≤ room }
        ensures reads { Reads (spec.statements self.now.limits (spec.stmt self.now.limits room Item) room self.now.limits.turns before tokens.old) result tokens.new }
        ensures low { IfOk result (λ x. x.height ≤ room + 1) }
    {
        let mut all = before;
        for _turn in 0..self.limits.turns {
            let Several {
                items,
                height,
                notes: front,
            } = all;
            let notes = tokens.comments(self.limits, front)?;
            if tokens.is(Sort::Finish) {
                tokens.take()?;
                return Ok(braced(self.limits, items, height, notes));
            }
            all = self.next_item(tokens, room, items, height, notes)?;
        }
        Err(Stop::Bad)
    }

    /// A block of at most this height, with comments before it.
    #[tactic(auto, unfolding(crate::specs::StmtRules::block))]
    pub fn block(
        &self,
        tokens: &mut Tokens<'_>,
        room: usize,
        notes: List<Text>,
    ) -> Result<TallBlock, Stop>
        requires nests { NestsStmt self.now.limits self.now.top (F.pre self.now.stmt) (F.post self.now.stmt) }
        requires limited { IsLimited self.now.limits self.now.top }
        requires inside { room ≤ self.now.top }
        ensures reads { Reads (spec.block self.now.limits (spec.stmt self.now.limits (room - 1) Item) room notes tokens.old) result tokens.new }
        ensures low { IfOk result (λ x. x.height ≤ room) }
    {
        if room == 0 {
            return Err(Stop::Bad);
        }
        tokens.expect(Sort::Begin)?;
        self.statements(tokens, room - 1, nothing(self.limits, notes))
    }

    /// The statements of a constructor, the first of which begins with `super`.
    #[tactic(auto, unfolding(crate::specs::StmtRules::from_super))]
    fn from_super(
        &self,
        tokens: &mut Tokens<'_>,
        room: usize,
        notes: List<Text>,
    ) -> Result<TallBlock, Stop>
        requires nests { NestsStmt self.now.limits self.now.top (F.pre self.now.stmt) (F.post self.now.stmt) }
        requires limited { IsLimited self.now.limits self.now.top }
        requires inside { room < self.now.top }
        ensures reads { Reads (spec.from_super self.now.limits (spec.stmt self.now.limits room Item) room notes tokens.old) result tokens.new }
        ensures low { IfOk result (λ x. x.height ≤ room + 1) }
    {
        let first = super_first(self.limits, tokens, room)?;
        let all = added(List::new(self.limits.alloc), 0, notes, first)?;
        self.statements(tokens, room, all)
    }

    /// The block of a constructor, which may begin with `super(..)`.
    #[tactic(auto, unfolding(crate::specs::StmtRules::constructor_block))]
    pub fn constructor_block(
        &self,
        tokens: &mut Tokens<'_>,
        room: usize,
        before: List<Text>,
    ) -> Result<TallBlock, Stop>
        requires nests { NestsStmt self.now.limits self.now.top (F.pre self.now.stmt) (F.post self.now.stmt) }
        requires limited { IsLimited self.now.limits self.now.top }
        requires inside { room ≤ self.now.top }
        ensures reads { Reads (spec.constructor_block self.now.limits (spec.stmt self.now.limits (room - 1) Item) room before tokens.old) result tokens.new }
        ensures low { IfOk result (λ x. x.height ≤ room) }
    {
        if room == 0 {
            return Err(Stop::Bad);
        }
        tokens.expect(Sort::Begin)?;
        let notes = tokens.comments(self.limits, before)?;
        if tokens.is(Sort::Super) {
            return self.from_super(tokens, room - 1, notes);
        }
        self.statements(tokens, room - 1, nothing(self.limits, notes))
    }

    /// A branch or loop body.
    #[tactic(auto, unfolding(crate::specs::StmtRules::branch))]
    pub fn branch(&self, tokens: &mut Tokens<'_>, place: Place) -> Result<TallBlock, Stop>
        requires nests { NestsStmt self.now.limits self.now.top (F.pre self.now.stmt) (F.post self.now.stmt) }
        requires limited { IsLimited self.now.limits self.now.top }
        requires some { 0 < self.now.top }
        ensures reads { Reads (at_height spec.branch self.now.limits self.now.top place tokens.old) result tokens.new }
        ensures low { IfOk result (λ x. x.height ≤ self.now.top - 1) }
    {
        let notes = tokens.comments(self.limits, List::new(self.limits.alloc))?;
        if tokens.is(Sort::Begin) {
            return self.block(tokens, self.top - 1, notes);
        }
        if self.top <= 2 {
            return Err(Stop::Bad);
        }
        let stmt = self.nested(tokens, self.top - 1 - 1, place)?;
        Ok(wrapped(self.limits, notes, stmt)?)
    }

    /// `{ .. }` as a statement.
    #[tactic(auto, unfolding(crate::specs::StmtRules::block_stmt))]
    fn block_stmt(&self, tokens: &mut Tokens<'_>) -> Result<TallStmt, Stop>
        requires nests { NestsStmt self.now.limits self.now.top (F.pre self.now.stmt) (F.post self.now.stmt) }
        requires limited { IsLimited self.now.limits self.now.top }
        requires some { 0 < self.now.top }
        ensures reads { Reads (at_height spec.block_stmt self.now.limits self.now.top tokens.old) result tokens.new }
        ensures low { IfOk result (λ x. x.height ≤ self.now.top) }
    {
        if self.top <= 1 {
            return Err(Stop::Bad);
        }
        let at = tokens.start();
        let none = List::new(self.limits.alloc);
        let block = self.block(tokens, self.top - 1, none)?;
        let height = block.height + 1;
        let node = StmtNode::Block(Block {
            items: block.items,
            tail: block.tail,
        });
        Ok(closed(self.limits, at, node, height)?)
    }

    /// A statement that is no block, no declaration and no `if`.
    #[tactic(auto, unfolding(crate::specs::StmtRules::plain))]
    fn plain(&self, tokens: &mut Tokens<'_>) -> Result<TallStmt, Stop>
        requires nests { NestsStmt self.now.limits self.now.top (F.pre self.now.stmt) (F.post self.now.stmt) }
        requires limited { IsLimited self.now.limits self.now.top }
        requires some { 0 < self.now.top }
        ensures reads { Reads (at_height spec.plain self.now.limits self.now.top tokens.old) result tokens.new }
        ensures low { IfOk result (λ x. x.height ≤ self.now.top) }
    {
        match tokens.peek() {
            Sort::While => self.while_stmt(tokens),
            Sort::For => self.for_stmt(tokens),
            Sort::Return => return_stmt(self.limits, tokens, self.top),
            Sort::Throw => throw_stmt(self.limits, tokens, self.top),
            Sort::Break => word_stmt(self.limits, tokens, StmtNode::Break),
            Sort::Continue => word_stmt(self.limits, tokens, StmtNode::Continue),
            Sort::Semi => empty_stmt(self.limits, tokens),
            _ => expression(self.limits, tokens, self.top),
        }
    }

    /// A statement of a block that is no `if`.
    #[tactic(auto, unfolding(crate::specs::StmtRules::item))]
    fn item(&self, tokens: &mut Tokens<'_>) -> Result<TallStmt, Stop>
        requires nests { NestsStmt self.now.limits self.now.top (F.pre self.now.stmt) (F.post self.now.stmt) }
        requires limited { IsLimited self.now.limits self.now.top }
        requires some { 0 < self.now.top }
        ensures reads { Reads (at_height spec.item self.now.limits self.now.top tokens.old) result tokens.new }
        ensures low { IfOk result (λ x. x.height ≤ self.now.top) }
    {
        match tokens.peek() {
            Sort::Begin => self.block_stmt(tokens),
            Sort::Final | Sort::Prim => local(self.limits, tokens, self.top),
            Sort::Name => named(self.limits, tokens, self.top),
            _ => self.plain(tokens),
        }
    }

    /// An `if` at this place.
    fn if_at(&self, tokens: &mut Tokens<'_>, place: Place) -> Result<TallStmt, Stop>
        requires nests { NestsStmt self.now.limits self.now.top (F.pre self.now.stmt) (F.post self.now.stmt) }
        requires limited { IsLimited self.now.limits self.now.top }
        requires some { 0 < self.now.top }
        ensures reads { Reads (at_height spec.if_at self.now.limits self.now.top place tokens.old) result tokens.new }
        ensures low { IfOk result (λ x. x.height ≤ self.now.top) }
    {
        match place {
            Place::Item | Place::Branch | Place::Chain => self.if_stmt(tokens),
            Place::Plain => Err(Stop::Bad),
        }
    }

    /// A statement that is no `if`, at this place.
    fn standing(&self, tokens: &mut Tokens<'_>, place: Place) -> Result<TallStmt, Stop>
        requires nests { NestsStmt self.now.limits self.now.top (F.pre self.now.stmt) (F.post self.now.stmt) }
        requires limited { IsLimited self.now.limits self.now.top }
        requires some { 0 < self.now.top }
        ensures reads { Reads (at_height spec.standing self.now.limits self.now.top place tokens.old) result tokens.new }
        ensures low { IfOk result (λ x. x.height ≤ self.now.top) }
    {
        match place {
            Place::Item => self.item(tokens),
            Place::Branch | Place::Plain => self.plain(tokens),
            Place::Chain => Err(Stop::Bad),
        }
    }

    /// A statement at this place.
    #[tactic(auto, unfolding(crate::specs::StmtRules::statement_at))]
    fn statement_at(&self, tokens: &mut Tokens<'_>, place: Place) -> Result<TallStmt, Stop>
        requires nests { NestsStmt self.now.limits self.now.top (F.pre self.now.stmt) (F.post self.now.stmt) }
        requires limited { IsLimited self.now.limits self.now.top }
        requires some { 0 < self.now.top }
        ensures reads { Reads (at_height spec.statement_at self.now.limits self.now.top place tokens.old) result tokens.new }
        ensures low { IfOk result (λ x. x.height ≤ self.now.top) }
    {
        if tokens.is(Sort::If) {
            return self.if_at(tokens, place);
        }
        self.standing(tokens, place)
    }
}

/// A statement of at most this height.
pub fn stmt(
    limits: Limits,
    tokens: &mut Tokens<'_>,
    top: usize,
    place: Place,
) -> Result<TallStmt, Stop>
    requires { IsLimited limits top }
    ensures reads { Reads (spec.stmt limits top place tokens.old) result tokens.new }
    ensures low { IfOk result (λ x. x.height ≤ top) }
{
    if top == 0 {
        return Err(Stop::Bad);
    }
    let rules = Rules { limits, top, stmt };
    rules.statement_at(tokens, place)
}
