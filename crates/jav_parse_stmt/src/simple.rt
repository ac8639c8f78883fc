//! Statements without statements inside (JLS 14).
ghost use Rattle.std.specs.Prelude.{◌≡◌, ◌<◌, ◌≤◌, ◌+◌, ◌-◌, ◌^◌, IfOk};
ghost use Rattle.jav_parse_expr.specs.Nests.{IsLimited};
ghost use Rattle.jav_parse_cursor.specs.Reads.{Reads};
ghost use Rattle.jav_parse_stmt.specs.StmtRules as spec;

use crate::local::{declarators, variables};
use crate::stmt_tall::{TallStmt, closed};
use jav_parse_cursor::limits::Limits;
use jav_parse_cursor::sort::Sort;
use jav_parse_cursor::stop::Stop;
use jav_parse_cursor::tall::Tall;
use jav_parse_cursor::tokens::Tokens;
use jav_parse_cursor::types::whole_type;
use jav_parse_expr::action::{Lead, acting_on, action, super_action, type_or_part};
use jav_parse_expr::expr::expr;
use jav_parse_expr::primary::{Goal, Grammar, free};
use jav_tree::{Let, StmtNode, TypeName};

/// An expression in parentheses, at most `top` high.
#[tactic(auto, unfolding(crate::specs::StmtRules::condition))]
pub fn condition(limits: Limits, tokens: &mut Tokens<'_>, top: usize) -> Result<Tall, Stop>
    requires { IsLimited limits top }
    ensures reads { Reads (spec.condition limits top tokens.old) result tokens.new }
    ensures low { IfOk result (λ x. x.height ≤ top) }
{
    tokens.expect(Sort::Open)?;
    let x = expr(limits, tokens, top, Goal::Level(1))?;
    tokens.expect(Sort::Close)?;
    Ok(x)
}

/// `super(..);` after its first word, at most `top` high.
#[tactic(auto, unfolding(crate::specs::StmtRules::super_start))]
fn super_start(
    limits: Limits,
    tokens: &mut Tokens<'_>,
    top: usize,
    at: u32,
) -> Result<TallStmt, Stop>
    requires limited { IsLimited limits top }
    requires some { 0 < top }
    ensures reads { Reads (spec.super_start limits top at tokens.old) result tokens.new }
    ensures low { IfOk result (λ x. x.height ≤ top) }
{
    let grammar = Grammar {
        limits,
        top,
        rooms: free(top),
        expr,
    };
    let args = grammar.arguments(tokens, top)?;
    tokens.expect(Sort::Semi)?;
    let height = args.height + 1;
    let node = StmtNode::SuperInit(args.exprs);
    Ok(closed(limits, at, node, height)?)
}

/// An expression as a statement, before its semicolon.
#[tactic(auto, unfolding(crate::specs::StmtRules::done))]
fn done(limits: Limits, tokens: &mut Tokens<'_>, at: u32, x: Tall) -> Result<TallStmt, Stop>
    requires { x.height < 2 ^ 63 }
    ensures reads { Reads (spec.done at x tokens.old) result tokens.new }
    ensures low { IfOk result (λ y. y.height ≤ x.height + 1) }
{
    tokens.expect(Sort::Semi)?;
    let height = x.height + 1;
    let node = StmtNode::Do(x.expr.into_inner());
    Ok(closed(limits, at, node, height)?)
}

/// The first statement of a constructor, which begins with `super`.
#[tactic(auto, unfolding(crate::specs::StmtRules::super_first))]
pub fn super_first(limits: Limits, tokens: &mut Tokens<'_>, top: usize) -> Result<TallStmt, Stop>
    requires { IsLimited limits top }
    ensures reads { Reads (spec.super_first limits top tokens.old) result tokens.new }
    ensures low { IfOk result (λ x. x.height ≤ top) }
{
    if top == 0 {
        return Err(Stop::Bad);
    }
    let at = tokens.take()?.start;
    if tokens.is(Sort::Open) {
        return super_start(limits, tokens, top, at);
    }
    let x = super_action(limits, tokens, top - 1, at)?;
    done(limits, tokens, at, x)
}

/// The rest of a declaration after its type.
#[tactic(auto, unfolding(crate::specs::StmtRules::local_of))]
fn local_of(
    limits: Limits,
    tokens: &mut Tokens<'_>,
    top: usize,
    at: u32,
    is_final: bool,
    ty: TypeName,
) -> Result<TallStmt, Stop>
    requires limited { IsLimited limits top }
    requires some { 0 < top }
    ensures reads { Reads (spec.local_of limits top at is_final ty tokens.old) result tokens.new }
    ensures low { IfOk result (λ x. x.height ≤ top) }
{
    let first = tokens.expect(Sort::Name)?;
    let all = variables(limits, tokens, top - 1, first)?;
    tokens.expect(Sort::Semi)?;
    let height = all.height + 1;
    let names = declarators(limits, all.items)?;
    let node = StmtNode::Let(Let {
        is_final,
        ty,
        names,
    });
    Ok(closed(limits, at, node, height)?)
}

/// A declaration that begins with `final`, or with a primitive type.
#[tactic(auto, unfolding(crate::specs::StmtRules::local))]
pub fn local(limits: Limits, tokens: &mut Tokens<'_>, top: usize) -> Result<TallStmt, Stop>
    requires limited { IsLimited limits top }
    requires some { 0 < top }
    ensures reads { Reads (spec.local limits top tokens.old) result tokens.new }
    ensures low { IfOk result (λ x. x.height ≤ top) }
{
    let at = tokens.start();
    if tokens.is(Sort::Final) {
        tokens.take()?;
        let ty = whole_type(limits, tokens)?;
        return local_of(limits, tokens, top, at, true, ty);
    }
    let ty = whole_type(limits, tokens)?;
    local_of(limits, tokens, top, at, false, ty)
}

/// A declaration or an expression, which begins with a name.
#[tactic(auto, unfolding(crate::specs::StmtRules::named))]
pub fn named(limits: Limits, tokens: &mut Tokens<'_>, top: usize) -> Result<TallStmt, Stop>
    requires limited { IsLimited limits top }
    requires some { 0 < top }
    ensures reads { Reads (spec.named limits top tokens.old) result tokens.new }
    ensures low { IfOk result (λ x. x.height ≤ top) }
{
    let at = tokens.start();
    match type_or_part(limits, tokens, top - 1)? {
        Lead::Declaration(ty) => local_of(limits, tokens, top, at, false, ty),
        Lead::Part(first) => {
            let x = acting_on(limits, tokens, top - 1, first)?;
            done(limits, tokens, at, x)
        }
    }
}

/// An expression as a statement.
#[tactic(auto, unfolding(crate::specs::StmtRules::expression))]
pub fn expression(limits: Limits, tokens: &mut Tokens<'_>, top: usize) -> Result<TallStmt, Stop>
    requires limited { IsLimited limits top }
    requires some { 0 < top }
    ensures reads { Reads (spec.expression limits top tokens.old) result tokens.new }
    ensures low { IfOk result (λ x. x.height ≤ top) }
{
    let at = tokens.start();
    let x = action(limits, tokens, top - 1)?;
    done(limits, tokens, at, x)
}

#[tactic(auto, unfolding(crate::specs::StmtRules::return_stmt))]
pub fn return_stmt(limits: Limits, tokens: &mut Tokens<'_>, top: usize) -> Result<TallStmt, Stop>
    requires limited { IsLimited limits top }
    requires some { 0 < top }
    ensures reads { Reads (spec.return_stmt limits top tokens.old) result tokens.new }
    ensures low { IfOk result (λ x. x.height ≤ top) }
{
    let at = tokens.take()?.start;
    if tokens.is(Sort::Semi) {
        tokens.take()?;
        return Ok(closed(limits, at, StmtNode::Return(None), 1)?);
    }
    if top <= 1 {
        return Err(Stop::Bad);
    }
    let x = expr(limits, tokens, top - 1, Goal::Level(1))?;
    tokens.expect(Sort::Semi)?;
    let height = x.height + 1;
    let node = StmtNode::Return(Some(x.expr.into_inner()));
    Ok(closed(limits, at, node, height)?)
}

#[tactic(auto, unfolding(crate::specs::StmtRules::throw_stmt))]
pub fn throw_stmt(limits: Limits, tokens: &mut Tokens<'_>, top: usize) -> Result<TallStmt, Stop>
    requires limited { IsLimited limits top }
    requires some { 0 < top }
    ensures reads { Reads (spec.throw_stmt limits top tokens.old) result tokens.new }
    ensures low { IfOk result (λ x. x.height ≤ top) }
{
    if top <= 1 {
        return Err(Stop::Bad);
    }
    let at = tokens.take()?.start;
    let x = expr(limits, tokens, top - 1, Goal::Level(1))?;
    tokens.expect(Sort::Semi)?;
    let height = x.height + 1;
    let node = StmtNode::Throw(x.expr.into_inner());
    Ok(closed(limits, at, node, height)?)
}

/// `break;` and `continue;`.
#[tactic(auto, unfolding(crate::specs::StmtRules::word_stmt))]
pub fn word_stmt(limits: Limits, tokens: &mut Tokens<'_>, node: StmtNode) -> Result<TallStmt, Stop>
    ensures reads { Reads (spec.word_stmt node tokens.old) result tokens.new }
    ensures low { IfOk result (λ x. x.height ≤ 1) }
{
    let at = tokens.take()?.start;
    tokens.expect(Sort::Semi)?;
    Ok(closed(limits, at, node, 1)?)
}

/// `;` alone.
#[tactic(auto, unfolding(crate::specs::StmtRules::empty_stmt))]
pub fn empty_stmt(limits: Limits, tokens: &mut Tokens<'_>) -> Result<TallStmt, Stop>
    ensures reads { Reads (spec.empty_stmt tokens.old) result tokens.new }
    ensures low { IfOk result (λ x. x.height ≤ 1) }
{
    let at = tokens.take()?.start;
    Ok(closed(limits, at, StmtNode::Empty, 1)?)
}
