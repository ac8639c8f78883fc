//! `if`, and the headers of `for` (JLS 14.9, 14.14).
ghost use Rattle.std.specs.Prelude.{◌≡◌, ◌<◌, ◌≤◌, ◌+◌, ◌-◌, ◌^◌, IfOk, max};
ghost use Rattle.jav_lex.specs.Token.{seen};
ghost use Rattle.jav_tree.specs.Blocks.{block_of};
ghost use Rattle.jav_parse_expr.specs.Nests.{IsLimited};
ghost use Rattle.jav_parse_stmt.specs.NestsStmt.{NestsStmt, IsHeaderLow, at_height};
ghost use Rattle.jav_parse_cursor.specs.Reads.{Reads};
ghost use Rattle.jav_parse_stmt.specs.StmtRules as spec;

use crate::local::{declarators, variables};
use crate::simple::condition;
use crate::stmt::{Place, Rules};
use crate::stmt_tall::{TallBlock, TallStmt, appended};
use jav_lex::Token;
use jav_parse_cursor::limits::Limits;
use jav_parse_cursor::sort::Sort;
use jav_parse_cursor::stop::Stop;
use jav_parse_cursor::tall::{Listed, no_exprs};
use jav_parse_cursor::tokens::Tokens;
use jav_parse_cursor::types::whole_type;
use jav_parse_expr::action::{Lead, acting_on, actions, actions_after, type_or_part};
use jav_parse_expr::expr::expr;
use jav_parse_expr::primary::Goal;
use jav_tree::{Block, Else, Expr, ForStart, Let, Stmt, StmtNode, TypeName};
use mol_base::{Boxed, List, OutOfMemory, Text};

/// What stands in the header of a `for` before its first semicolon, or before `:`.
#[derive(Drop)]
pub enum HeaderPart {
    Start(Boxed<ForStart>, usize),
    Each(bool, TypeName, Text),
}

/// What follows `else`.
#[derive(Drop)]
pub struct TallElse {
    pub branch: Boxed<Else>,
    pub height: usize,
    pub is_open: bool,
    pub after: List<Text>,
}

/// An expression, or nothing.
#[derive(Drop)]
pub struct Maybe {
    pub expr: Option<Boxed<Expr>>,
    pub height: usize,
}

/// Variables, after their type.
#[tactic(auto, unfolding(crate::specs::StmtRules::header_let))]
fn header_let(
    limits: Limits,
    tokens: &mut Tokens<'_>,
    top: usize,
    is_final: bool,
    ty: TypeName,
    first: &Token,
) -> Result<HeaderPart, Stop>
    requires { IsLimited limits top }
    ensures reads { Reads (spec.header_let limits top is_final ty (seen first.now) tokens.old) result tokens.new }
    ensures low { IfOk result (IsHeaderLow top) }
{
    let all = variables(limits, tokens, top, first)?;
    let names = declarators(limits, all.items)?;
    let start = ForStart::Let(Let {
        is_final,
        ty,
        names,
    });
    let start = Boxed::new(limits.alloc, start)?;
    Ok(HeaderPart::Start(start, all.height))
}

/// What follows the type in a header.
#[tactic(auto, unfolding(crate::specs::StmtRules::header_of))]
fn header_of(
    limits: Limits,
    tokens: &mut Tokens<'_>,
    top: usize,
    is_final: bool,
    ty: TypeName,
) -> Result<HeaderPart, Stop>
    requires { IsLimited limits top }
    ensures reads { Reads (spec.header_of limits top is_final ty tokens.old) result tokens.new }
    ensures low { IfOk result (IsHeaderLow top) }
{
    let first = tokens.expect(Sort::Name)?;
    if tokens.is(Sort::Colon) {
        let name = first.text.copy(limits.alloc)?;
        return Ok(HeaderPart::Each(is_final, ty, name));
    }
    header_let(limits, tokens, top, is_final, ty, first)
}

fn doing(limits: Limits, all: Listed) -> Result<HeaderPart, OutOfMemory>
    ensures { IfOk result (λ y. y ≡ spec.doing all) }
{
    let start = Boxed::new(limits.alloc, ForStart::Do(all.exprs))?;
    Ok(HeaderPart::Start(start, all.height))
}

/// A header that begins with a name.
#[tactic(auto, unfolding(crate::specs::StmtRules::header_named))]
fn header_named(limits: Limits, tokens: &mut Tokens<'_>, top: usize) -> Result<HeaderPart, Stop>
    requires { IsLimited limits top }
    ensures reads { Reads (spec.header_named limits top tokens.old) result tokens.new }
    ensures low { IfOk result (IsHeaderLow top) }
{
    match type_or_part(limits, tokens, top)? {
        Lead::Declaration(ty) => header_of(limits, tokens, top, false, ty),
        Lead::Part(first) => {
            let x = acting_on(limits, tokens, top, first)?;
            let all = actions_after(limits, tokens, top, x)?;
            Ok(doing(limits, all)?)
        }
    }
}

#[tactic(auto, unfolding(crate::specs::StmtRules::header))]
pub fn header(limits: Limits, tokens: &mut Tokens<'_>, top: usize) -> Result<HeaderPart, Stop>
    requires { IsLimited limits top }
    ensures reads { Reads (spec.header limits top tokens.old) result tokens.new }
    ensures low { IfOk result (IsHeaderLow top) }
{
    match tokens.peek() {
        Sort::Semi => {
            let start = Boxed::new(limits.alloc, ForStart::None)?;
            Ok(HeaderPart::Start(start, 0))
        }
        Sort::Final => {
            tokens.take()?;
            let ty = whole_type(limits, tokens)?;
            header_of(limits, tokens, top, true, ty)
        }
        Sort::Prim => {
            let ty = whole_type(limits, tokens)?;
            header_of(limits, tokens, top, false, ty)
        }
        Sort::Name => header_named(limits, tokens, top),
        _ => {
            let all = actions(limits, tokens, top)?;
            Ok(doing(limits, all)?)
        }
    }
}

/// The test of a `for`, before the second semicolon.
#[tactic(auto, unfolding(crate::specs::StmtRules::for_test))]
pub fn for_test(limits: Limits, tokens: &mut Tokens<'_>, top: usize) -> Result<Maybe, Stop>
    requires { IsLimited limits top }
    ensures reads { Reads (spec.for_test limits top tokens.old) result tokens.new }
    ensures low { IfOk result (λ x. x.height ≤ top) }
{
    if tokens.is(Sort::Semi) {
        return Ok(Maybe {
            expr: None,
            height: 0,
        });
    }
    let x = expr(limits, tokens, top, Goal::Level(1))?;
    Ok(Maybe {
        expr: Some(x.expr),
        height: x.height,
    })
}

/// What a `for` does after each turn, before its last parenthesis.
#[tactic(auto, unfolding(crate::specs::StmtRules::updates))]
pub fn updates(limits: Limits, tokens: &mut Tokens<'_>, top: usize) -> Result<Listed, Stop>
    requires { IsLimited limits top }
    ensures reads { Reads (spec.updates limits top tokens.old) result tokens.new }
    ensures low { IfOk result (λ x. x.height ≤ top) }
{
    if tokens.is(Sort::Close) {
        return Ok(no_exprs(limits));
    }
    actions(limits, tokens, top)
}

/// A branch or loop body as a block.
pub fn block_of(items: List<Stmt>, tail: List<Text>) -> Block
    ensures { result ≡ block_of items tail }
{
    Block { items, tail }
}

/// An `if` after `else`, as it stands there.
fn chained(limits: Limits, stmt: TallStmt) -> Result<TallElse, OutOfMemory>
    ensures { IfOk result (λ y. y ≡ spec.chained stmt) }
{
    let second = Stmt {
        notes: List::new(limits.alloc),
        at: stmt.at,
        node: stmt.node.into_inner(),
    };
    let branch = Else::If(Boxed::new(limits.alloc, second)?);
    Ok(TallElse {
        branch: Boxed::new(limits.alloc, branch)?,
        height: stmt.height,
        is_open: stmt.is_open,
        after: stmt.after,
    })
}

/// Any other branch after `else`.
fn second_branch(limits: Limits, branch: TallBlock) -> Result<TallElse, OutOfMemory>
    ensures { IfOk result (λ y. y ≡ spec.second_branch branch) }
{
    let block = Else::Block(block_of(branch.items, branch.tail));
    Ok(TallElse {
        branch: Boxed::new(limits.alloc, block)?,
        height: branch.height,
        is_open: branch.is_open,
        after: branch.after,
    })
}

/// An `if` without `else`.
fn short_if(
    limits: Limits,
    at: u32,
    test: Boxed<Expr>,
    height: usize,
    then: TallBlock,
    notes: List<Text>,
) -> Result<TallStmt, OutOfMemory>
    requires height { height < 2 ^ 63 }
    requires then_height { then.height < 2 ^ 63 }
    ensures { IfOk result (λ y. y ≡ spec.short_if at test height then notes) }
{
    let block = block_of(then.items, then.tail);
    let node = StmtNode::If(test.into_inner(), block, Else::None);
    Ok(TallStmt {
        at,
        node: Boxed::new(limits.alloc, node)?,
        height: height.max(then.height) + 1,
        is_open: true,
        after: notes,
    })
}

/// An `if` with `else`.
fn long_if(
    limits: Limits,
    at: u32,
    test: Boxed<Expr>,
    height: usize,
    then: TallBlock,
    notes: List<Text>,
    second: TallElse,
) -> Result<TallStmt, OutOfMemory>
    requires height { height < 2 ^ 63 }
    requires then_height { then.height < 2 ^ 63 }
    requires else_height { second.height < 2 ^ 63 }
    ensures { IfOk result (λ y. y ≡ spec.long_if at test height then notes second) }
{
    let tail = appended(then.tail, notes)?;
    let block = block_of(then.items, tail);
    let node = StmtNode::If(test.into_inner(), block, second.branch.into_inner());
    Ok(TallStmt {
        at,
        node: Boxed::new(limits.alloc, node)?,
        height: height.max(then.height).max(second.height) + 1,
        is_open: second.is_open,
        after: second.after,
    })
}

impl<F: Copy + Fn(Limits, &mut Tokens<'_>, usize, Place) -> Result<TallStmt, Stop>> Rules<F> {
    /// The branch after `else`.
    #[tactic(auto, unfolding(crate::specs::StmtRules::else_branch))]
    fn else_branch(&self, tokens: &mut Tokens<'_>) -> Result<TallElse, Stop>
        requires nests { NestsStmt self.now.limits self.now.top (F.pre self.now.stmt) (F.post self.now.stmt) }
        requires limited { IsLimited self.now.limits self.now.top }
        requires more { 1 < self.now.top }
        ensures reads { Reads (at_height spec.else_branch self.now.limits self.now.top tokens.old) result tokens.new }
        ensures low { IfOk result (λ x. x.height ≤ self.now.top - 1) }
    {
        if tokens.is(Sort::If) {
            let stmt = self.nested(tokens, self.top - 1, Place::Chain)?;
            return Ok(chained(self.limits, stmt)?);
        }
        let branch = self.branch(tokens, Place::Plain)?;
        Ok(second_branch(self.limits, branch)?)
    }

    /// `else` and its branch, after the first branch of an `if` and the comments after it.
    fn with_else(
        &self,
        tokens: &mut Tokens<'_>,
        at: u32,
        test: Boxed<Expr>,
        height: usize,
        then: TallBlock,
        notes: List<Text>,
    ) -> Result<TallStmt, Stop>
        requires nests { NestsStmt self.now.limits self.now.top (F.pre self.now.stmt) (F.post self.now.stmt) }
        requires limited { IsLimited self.now.limits self.now.top }
        requires more { 1 < self.now.top }
        requires height { height < self.now.top }
        requires then_height { then.height < self.now.top }
        ensures reads { Reads (at_height spec.with_else self.now.limits self.now.top at test height then notes tokens.old) result tokens.new }
        ensures low { IfOk result (λ x. x.height ≤ self.now.top) }
    {
        tokens.take()?;
        let second = self.else_branch(tokens)?;
        Ok(long_if(self.limits, at, test, height, then, notes, second)?)
    }

    /// What follows the first branch of an `if` and the comments after it.
    fn chosen_after(
        &self,
        tokens: &mut Tokens<'_>,
        at: u32,
        test: Boxed<Expr>,
        height: usize,
        then: TallBlock,
        notes: List<Text>,
    ) -> Result<TallStmt, Stop>
        requires nests { NestsStmt self.now.limits self.now.top (F.pre self.now.stmt) (F.post self.now.stmt) }
        requires limited { IsLimited self.now.limits self.now.top }
        requires more { 1 < self.now.top }
        requires height { height < self.now.top }
        requires then_height { then.height < self.now.top }
        ensures reads { Reads (at_height spec.chosen_after self.now.limits self.now.top at test height then notes tokens.old) result tokens.new }
        ensures low { IfOk result (λ x. x.height ≤ self.now.top) }
    {
        if then.is_open || !tokens.is(Sort::Else) {
            return Ok(short_if(self.limits, at, test, height, then, notes)?);
        }
        self.with_else(tokens, at, test, height, then, notes)
    }

    /// What follows the first branch of an `if`, which begins at `at`.
    #[tactic(auto, unfolding(crate::specs::StmtRules::chosen))]
    fn chosen(
        &self,
        tokens: &mut Tokens<'_>,
        at: u32,
        test: Boxed<Expr>,
        height: usize,
        then: TallBlock,
    ) -> Result<TallStmt, Stop>
        requires nests { NestsStmt self.now.limits self.now.top (F.pre self.now.stmt) (F.post self.now.stmt) }
        requires limited { IsLimited self.now.limits self.now.top }
        requires more { 1 < self.now.top }
        requires height { height < self.now.top }
        requires then_height { then.height < self.now.top }
        ensures reads { Reads (at_height spec.chosen self.now.limits self.now.top at test height then tokens.old) result tokens.new }
        ensures low { IfOk result (λ x. x.height ≤ self.now.top) }
    {
        let TallBlock {
            items,
            tail,
            height: own,
            is_open,
            after,
        } = then;
        let notes = tokens.comments(self.limits, after)?;
        let first = TallBlock {
            items,
            tail,
            height: own,
            is_open,
            after: List::new(self.limits.alloc),
        };
        self.chosen_after(tokens, at, test, height, first, notes)
    }

    #[tactic(auto, unfolding(crate::specs::StmtRules::if_stmt))]
    pub fn if_stmt(&self, tokens: &mut Tokens<'_>) -> Result<TallStmt, Stop>
        requires nests { NestsStmt self.now.limits self.now.top (F.pre self.now.stmt) (F.post self.now.stmt) }
        requires limited { IsLimited self.now.limits self.now.top }
        requires some { 0 < self.now.top }
        ensures reads { Reads (at_height spec.if_stmt self.now.limits self.now.top tokens.old) result tokens.new }
        ensures low { IfOk result (λ x. x.height ≤ self.now.top) }
    {
        if self.top <= 1 {
            return Err(Stop::Bad);
        }
        let at = tokens.take()?.start;
        let test = condition(self.limits, tokens, self.top - 1)?;
        let then = self.branch(tokens, Place::Branch)?;
        self.chosen(tokens, at, test.expr, test.height, then)
    }
}
