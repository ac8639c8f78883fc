//! Expressions that may be statements, and how they are told from declarations (JLS 14.8).
ghost use Rattle.std.specs.Prelude.{◌≡◌, ◌<◌, ◌≤◌, ◌+◌, ◌-◌, ◌^◌, IfOk};
ghost use Rattle.jav_parse_expr.specs.ActionRules as spec;
ghost use Rattle.jav_parse_expr.specs.Nests.{Nests, IsLimited};
ghost use Rattle.jav_parse_expr.specs.NestsLead.{IsLow};
ghost use Rattle.jav_parse_expr.specs.PrimaryRules as primaries;
ghost use Rattle.jav_parse_cursor.specs.Reads.{Reads};

use crate::expr::{expr, is_assignment};
use crate::primary::{Goal, Grammar, acting};
use jav_parse_cursor::limits::Limits;
use jav_parse_cursor::sort::Sort;
use jav_parse_cursor::stop::Stop;
use jav_parse_cursor::tall;
use jav_parse_cursor::tall::{Listed, Tall};
use jav_parse_cursor::tokens::Tokens;
use jav_parse_cursor::types::{Names, array_of, brackets, qualified};
use jav_tree::TypeName;

/// What begins with names, where a declaration or an expression may stand.
#[derive(Drop)]
pub enum Lead {
    /// The type of a declaration.
    Declaration(TypeName),
    /// The first part of an expression.
    Part(Tall),
}

impl<F: Copy + Fn(Limits, &mut Tokens<'_>, usize, Goal) -> Result<Tall, Stop>> Grammar<F> {
    /// What makes a statement of an expression of level 15.
    #[tactic(auto, unfolding(crate::specs::ActionRules::ending))]
    fn ending(&self, tokens: &mut Tokens<'_>, left: Tall) -> Result<Tall, Stop>
        requires nests { Nests self.now.limits self.now.top (F.pre self.now.expr) (F.post self.now.expr) }
        requires limited { IsLimited self.now.limits self.now.top }
        requires some { 0 < self.now.top }
        requires height { left.height ≤ self.now.top }
        ensures reads { Reads (spec.ending self.now.limits self.now.top left tokens.old) result tokens.new }
        ensures low { IfOk result (λ x. x.height ≤ self.now.top) }
    {
        let next = tokens.peek();
        if tokens.is(Sort::Step) {
            return self.step_after(tokens, left);
        }
        if is_assignment(next) {
            if left.shape.is_target() {
                return self.assignment(tokens, left);
            }
            return Err(Stop::Bad);
        }
        if left.shape.is_invocation() {
            Ok(left)
        } else {
            Err(Stop::Bad)
        }
    }

    /// An expression that may be a statement and begins with `first`.
    #[tactic(auto, unfolding(crate::specs::ActionRules::goes_on))]
    fn acting_on(&self, tokens: &mut Tokens<'_>, first: Tall) -> Result<Tall, Stop>
        requires nests { Nests self.now.limits self.now.top (F.pre self.now.expr) (F.post self.now.expr) }
        requires limited { IsLimited self.now.limits self.now.top }
        requires some { 0 < self.now.top }
        requires acting { self.now.rooms ≡ primaries.acting self.now.top }
        requires height { first.height ≤ self.now.top }
        ensures reads { Reads (spec.goes_on self.now.limits self.now.top first tokens.old) result tokens.new }
        ensures low { IfOk result (λ x. x.height ≤ self.now.top) }
    {
        let left = self.chain(tokens, first)?;
        self.ending(tokens, left)
    }

    /// An expression that may be a statement.
    #[tactic(auto, unfolding(crate::specs::ActionRules::acts))]
    fn acts(&self, tokens: &mut Tokens<'_>) -> Result<Tall, Stop>
        requires nests { Nests self.now.limits self.now.top (F.pre self.now.expr) (F.post self.now.expr) }
        requires limited { IsLimited self.now.limits self.now.top }
        requires some { 0 < self.now.top }
        requires acting { self.now.rooms ≡ primaries.acting self.now.top }
        ensures reads { Reads (spec.acts self.now.limits self.now.top tokens.old) result tokens.new }
        ensures low { IfOk result (λ x. x.height ≤ self.now.top) }
    {
        if tokens.is(Sort::Step) {
            return self.prefixed(tokens, Goal::Target);
        }
        let left = self.part(tokens)?;
        self.ending(tokens, left)
    }
}

/// An expression that may be a statement, at most `top` high.
#[tactic(auto, unfolding(crate::specs::ActionRules::action))]
pub fn action(limits: Limits, tokens: &mut Tokens<'_>, top: usize) -> Result<Tall, Stop>
    requires { IsLimited limits top }
    ensures reads { Reads (spec.action limits top tokens.old) result tokens.new }
    ensures low { IfOk result (λ x. x.height ≤ top) }
{
    if top == 0 {
        return Err(Stop::Bad);
    }
    let grammar = Grammar {
        limits,
        top,
        rooms: acting(top),
        expr,
    };
    grammar.acts(tokens)
}

/// An expression that may be a statement and begins with `first`.
#[tactic(auto, unfolding(crate::specs::ActionRules::acting_on))]
pub fn acting_on(
    limits: Limits,
    tokens: &mut Tokens<'_>,
    top: usize,
    first: Tall,
) -> Result<Tall, Stop>
    requires limited { IsLimited limits top }
    requires height { first.height ≤ top }
    ensures reads { Reads (spec.acting_on limits top first tokens.old) result tokens.new }
    ensures low { IfOk result (λ x. x.height ≤ top) }
{
    if top == 0 {
        return Err(Stop::Bad);
    }
    let grammar = Grammar {
        limits,
        top,
        rooms: acting(top),
        expr,
    };
    grammar.acting_on(tokens, first)
}

/// An expression that may be a statement and begins with a call by `super`, after that word.
#[tactic(auto, unfolding(crate::specs::ActionRules::super_action))]
pub fn super_action(
    limits: Limits,
    tokens: &mut Tokens<'_>,
    top: usize,
    at: u32,
) -> Result<Tall, Stop>
    requires { IsLimited limits top }
    ensures reads { Reads (spec.super_action limits top at tokens.old) result tokens.new }
    ensures low { IfOk result (λ x. x.height ≤ top) }
{
    if top == 0 {
        return Err(Stop::Bad);
    }
    let grammar = Grammar {
        limits,
        top,
        rooms: acting(top),
        expr,
    };
    let first = grammar.super_call(tokens, at)?;
    grammar.acting_on(tokens, first)
}

/// An index of the array that these names are, or an array type of this name, after the first bracket.
#[tactic(auto, unfolding(crate::specs::ActionRules::indexed_or_array))]
fn indexed_or_array(
    limits: Limits,
    tokens: &mut Tokens<'_>,
    top: usize,
    names: Names<'_>,
) -> Result<Lead, Stop>
    requires { IsLimited limits top }
    ensures reads { Reads (spec.indexed_or_array limits top names.entry tokens.old) result tokens.new }
    ensures low { IfOk result (IsLow top) }
{
    if tokens.is(Sort::Right) {
        tokens.take()?;
        let pairs = brackets(limits, tokens, 1)?;
        let base = names.named(limits)?;
        return Ok(Lead::Declaration(array_of(limits, base, pairs)?));
    }
    if top == 0 {
        return Err(Stop::Bad);
    }
    let grammar = Grammar {
        limits,
        top,
        rooms: acting(top),
        expr,
    };
    Ok(Lead::Part(grammar.named_item(tokens, names)?))
}

/// What names begin: the type of a declaration, or the first part of an expression that may be a statement,
/// at most `top` high.
#[tactic(auto, unfolding(crate::specs::ActionRules::type_or_part))]
pub fn type_or_part(limits: Limits, tokens: &mut Tokens<'_>, top: usize) -> Result<Lead, Stop>
    requires { IsLimited limits top }
    ensures reads { Reads (spec.type_or_part limits top tokens.old) result tokens.new }
    ensures low { IfOk result (IsLow top) }
{
    let names = qualified(limits, tokens)?;
    match tokens.peek() {
        Sort::Name => Ok(Lead::Declaration(names.named(limits)?)),
        Sort::Left => {
            tokens.take()?;
            indexed_or_array(limits, tokens, top, names)
        }
        _ => {
            if top == 0 {
                return Err(Stop::Bad);
            }
            let grammar = Grammar {
                limits,
                top,
                rooms: acting(top),
                expr,
            };
            Ok(Lead::Part(grammar.named(tokens, names)?))
        }
    }
}

/// Further expressions that may be statements, each after a comma.
fn further_actions(
    limits: Limits,
    tokens: &mut Tokens<'_>,
    top: usize,
    first: Listed,
) -> Result<Listed, Stop>
    requires limited { IsLimited limits top }
    requires height { first.height ≤ top }
    ensures reads { Reads (spec.further_actions limits top limits.turns first tokens.old) result tokens.new }
    ensures low { IfOk result (λ all. all.height ≤ top) }
{
    let mut all = first;
    for _turn in 0..limits.turns {
        if !tokens.is(Sort::Comma) {
            return Ok(all);
        }
        tokens.take()?;
        let x = action(limits, tokens, top)?;
        all = tall::with(all, x)?;
    }
    Err(Stop::Bad)
}

/// The same after the first.
#[tactic(auto, unfolding(crate::specs::ActionRules::actions_after))]
pub fn actions_after(
    limits: Limits,
    tokens: &mut Tokens<'_>,
    top: usize,
    first: Tall,
) -> Result<Listed, Stop>
    requires limited { IsLimited limits top }
    requires height { first.height ≤ top }
    ensures reads { Reads (spec.actions_after limits top first tokens.old) result tokens.new }
    ensures low { IfOk result (λ all. all.height ≤ top) }
{
    let one = tall::with(tall::no_exprs(limits), first)?;
    further_actions(limits, tokens, top, one)
}

/// Expressions that may be statements, with commas between them.
#[tactic(auto, unfolding(crate::specs::ActionRules::actions))]
pub fn actions(limits: Limits, tokens: &mut Tokens<'_>, top: usize) -> Result<Listed, Stop>
    requires { IsLimited limits top }
    ensures reads { Reads (spec.actions limits top tokens.old) result tokens.new }
    ensures low { IfOk result (λ all. all.height ≤ top) }
{
    let first = action(limits, tokens, top)?;
    actions_after(limits, tokens, top, first)
}
