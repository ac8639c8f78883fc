//! Operators, casts, and expressions (JLS 15.14 to 15.27).
ghost use Rattle.std.specs.Prelude.{◌≡◌, ◌<◌, ◌≤◌, ◌-◌, IfOk};
ghost use Rattle.jav_parse_expr.specs.ExprRules as spec;
ghost use Rattle.jav_parse_expr.specs.Nests.{Nests, IsLimited, Fits, at_height};
ghost use Rattle.jav_parse_expr.specs.PrimaryRules as primaries;
ghost use Rattle.jav_parse_cursor.specs.Reads.{Reads};

use crate::primary::{Goal, Grammar, free, stepping};
use jav_parse_cursor::limits::Limits;
use jav_parse_cursor::sort::Sort;
use jav_parse_cursor::stop::Stop;
use jav_parse_cursor::tall;
use jav_parse_cursor::tall::Tall;
use jav_parse_cursor::tokens::Tokens;
use jav_parse_cursor::types::whole_type;

/// The level of an operator between two operands, and of `instanceof`; 0 for any other token.
fn level_of(sort: Sort) -> usize
    ensures same { result ≡ spec.level_of sort }
    ensures low { result ≤ 12 }
{
    match sort {
        Sort::Or => 3,
        Sort::And => 4,
        Sort::BitOr => 5,
        Sort::Xor => 6,
        Sort::BitAnd => 7,
        Sort::Equality => 8,
        Sort::Relation | Sort::InstanceOf => 9,
        Sort::Shift => 10,
        Sort::Sign => 11,
        Sort::Product => 12,
        _ => 0,
    }
}

/// The tightest level of an operator between two operands.
const TIGHTEST: usize = 12;

/// `=` and the compound assignments.
pub fn is_assignment(sort: Sort) -> bool
    ensures { result ≡ spec.is_assignment sort }
{
    match sort {
        Sort::Equals | Sort::Compound => true,
        _ => false,
    }
}

impl<F: Copy + Fn(Limits, &mut Tokens<'_>, usize, Goal) -> Result<Tall, Stop>> Grammar<F> {
    pub fn part_of(&self, tokens: &mut Tokens<'_>, goal: Goal) -> Result<Tall, Stop>
        requires nests { Nests self.now.limits self.now.top (F.pre self.now.expr) (F.post self.now.expr) }
        requires some { 0 < self.now.top }
        requires fits { Fits (self.now.top - 1) goal }
        ensures reads { Reads (spec.expr self.now.limits (self.now.top - 1) goal tokens.old) result tokens.new }
        ensures low { IfOk result (λ x. x.height ≤ self.now.top - 1) }
    {
        (self.expr)(self.limits, tokens, self.top - 1, goal)
    }

    /// `++` or `--` after `left`, or nothing.
    #[tactic(auto, unfolding(crate::specs::ExprRules::postfix))]
    pub fn postfix(&self, tokens: &mut Tokens<'_>, left: Tall) -> Result<Tall, Stop>
        requires nests { Nests self.now.limits self.now.top (F.pre self.now.expr) (F.post self.now.expr) }
        requires limited { IsLimited self.now.limits self.now.top }
        requires some { 0 < self.now.top }
        requires height { left.height ≤ self.now.top }
        ensures reads { Reads (at_height spec.postfix self.now.limits self.now.top left tokens.old) result tokens.new }
        ensures low { IfOk result (λ x. x.height ≤ self.now.top) }
    {
        if tokens.is(Sort::Step) {
            return self.step_after(tokens, left);
        }
        Ok(left)
    }

    /// `++` or `--` after `left`.
    #[tactic(auto, unfolding(crate::specs::ExprRules::step_after))]
    pub fn step_after(&self, tokens: &mut Tokens<'_>, left: Tall) -> Result<Tall, Stop>
        requires nests { Nests self.now.limits self.now.top (F.pre self.now.expr) (F.post self.now.expr) }
        requires limited { IsLimited self.now.limits self.now.top }
        requires some { 0 < self.now.top }
        requires height { left.height ≤ self.now.top }
        ensures reads { Reads (at_height spec.step_after self.now.limits self.now.top left tokens.old) result tokens.new }
        ensures low { IfOk result (λ x. x.height ≤ self.now.top) }
    {
        if !left.shape.is_target() || self.top <= left.height {
            return Err(Stop::Bad);
        }
        let op = tokens.take()?;
        Ok(tall::stepped(self.limits, left, op)?)
    }

    /// An assignment operator and its right side, after `left`.
    #[tactic(auto, unfolding(crate::specs::ExprRules::assign_to))]
    fn assign_to(&self, tokens: &mut Tokens<'_>, left: Tall) -> Result<Tall, Stop>
        requires nests { Nests self.now.limits self.now.top (F.pre self.now.expr) (F.post self.now.expr) }
        requires limited { IsLimited self.now.limits self.now.top }
        requires some { 0 < self.now.top }
        requires height { left.height < self.now.top }
        ensures reads { Reads (at_height spec.assign_to self.now.limits self.now.top left tokens.old) result tokens.new }
        ensures low { IfOk result (λ x. x.height ≤ self.now.top) }
    {
        let op = tokens.take()?;
        let right = self.part_of(tokens, Goal::Level(1))?;
        Ok(tall::assigned(self.limits, left, op, right)?)
    }

    /// An assignment to `left`.
    #[tactic(auto, unfolding(crate::specs::ExprRules::assignment))]
    pub fn assignment(&self, tokens: &mut Tokens<'_>, left: Tall) -> Result<Tall, Stop>
        requires nests { Nests self.now.limits self.now.top (F.pre self.now.expr) (F.post self.now.expr) }
        requires limited { IsLimited self.now.limits self.now.top }
        requires some { 0 < self.now.top }
        requires height { left.height ≤ self.now.top }
        ensures reads { Reads (at_height spec.assignment self.now.limits self.now.top left tokens.old) result tokens.new }
        ensures low { IfOk result (λ x. x.height ≤ self.now.top) }
    {
        if self.top <= left.height {
            return Err(Stop::Bad);
        }
        self.assign_to(tokens, left)
    }

    /// `instanceof` and a type, after `left`.
    #[tactic(auto, unfolding(crate::specs::ExprRules::instance_of))]
    fn instance_of(&self, tokens: &mut Tokens<'_>, left: Tall) -> Result<Tall, Stop>
        requires nests { Nests self.now.limits self.now.top (F.pre self.now.expr) (F.post self.now.expr) }
        requires limited { IsLimited self.now.limits self.now.top }
        requires some { 0 < self.now.top }
        requires height { left.height < self.now.top }
        ensures reads { Reads (at_height spec.instance_of self.now.limits self.now.top left tokens.old) result tokens.new }
        ensures low { IfOk result (λ x. x.height ≤ self.now.top) }
    {
        tokens.take()?;
        let ty = whole_type(self.limits, tokens)?;
        Ok(tall::tested(self.limits, left, ty)?)
    }

    /// An operator of this level and its right operand, after `left`.
    #[tactic(auto, unfolding(crate::specs::ExprRules::binary))]
    fn binary(&self, tokens: &mut Tokens<'_>, left: Tall, own: usize) -> Result<Tall, Stop>
        requires nests { Nests self.now.limits self.now.top (F.pre self.now.expr) (F.post self.now.expr) }
        requires limited { IsLimited self.now.limits self.now.top }
        requires some { 0 < self.now.top }
        requires height { left.height < self.now.top }
        requires own { own ≤ 12 }
        ensures reads { Reads (at_height spec.binary self.now.limits self.now.top left own tokens.old) result tokens.new }
        ensures low { IfOk result (λ x. x.height ≤ self.now.top) }
    {
        let op = tokens.take()?;
        let right = self.part_of(tokens, Goal::Level(own + 1))?;
        Ok(tall::joined(self.limits, left, op, right)?)
    }

    /// An operator of this level, or `instanceof`, and what follows it, after `left`.
    #[tactic(auto, unfolding(crate::specs::ExprRules::operation))]
    fn operation(&self, tokens: &mut Tokens<'_>, left: Tall, own: usize) -> Result<Tall, Stop>
        requires nests { Nests self.now.limits self.now.top (F.pre self.now.expr) (F.post self.now.expr) }
        requires limited { IsLimited self.now.limits self.now.top }
        requires some { 0 < self.now.top }
        requires height { left.height ≤ self.now.top }
        requires own { own ≤ 12 }
        ensures reads { Reads (at_height spec.operation self.now.limits self.now.top left own tokens.old) result tokens.new }
        ensures low { IfOk result (λ x. x.height ≤ self.now.top) }
    {
        if self.top <= left.height {
            return Err(Stop::Bad);
        }
        if tokens.is(Sort::InstanceOf) {
            return self.instance_of(tokens, left);
        }
        self.binary(tokens, left, own)
    }

    /// What goes on from `first` by operators of the level `least` and tighter ones. The level of the last one
    /// bounds that of the next.
    fn climb(&self, tokens: &mut Tokens<'_>, first: Tall, least: usize) -> Result<Tall, Stop>
        requires nests { Nests self.now.limits self.now.top (F.pre self.now.expr) (F.post self.now.expr) }
        requires limited { IsLimited self.now.limits self.now.top }
        requires some { 0 < self.now.top }
        requires height { first.height ≤ self.now.top }
        requires least { 0 < least }
        ensures reads { Reads (at_height spec.climb self.now.limits self.now.top self.now.top least 12 first tokens.old) result tokens.new }
        ensures low { IfOk result (λ x. x.height ≤ self.now.top) }
    {
        let mut left = first;
        let mut cap = TIGHTEST;
        for _turn in 0..self.top {
            let own = level_of(tokens.peek());
            if own < least || cap < own {
                return Ok(left);
            }
            left = self.operation(tokens, left, own)?;
            cap = own;
        }
        Ok(left)
    }

    /// `? a : b` after `test`.
    #[tactic(auto, unfolding(crate::specs::ExprRules::choice))]
    fn choice(&self, tokens: &mut Tokens<'_>, test: Tall) -> Result<Tall, Stop>
        requires nests { Nests self.now.limits self.now.top (F.pre self.now.expr) (F.post self.now.expr) }
        requires limited { IsLimited self.now.limits self.now.top }
        requires some { 0 < self.now.top }
        requires height { test.height ≤ self.now.top }
        ensures reads { Reads (at_height spec.choice self.now.limits self.now.top test tokens.old) result tokens.new }
        ensures low { IfOk result (λ x. x.height ≤ self.now.top) }
    {
        if self.top <= test.height {
            return Err(Stop::Bad);
        }
        tokens.take()?;
        let x = self.part_of(tokens, Goal::Level(1))?;
        tokens.expect(Sort::Colon)?;
        let y = self.part_of(tokens, Goal::Level(2))?;
        Ok(tall::chosen(self.limits, test, x, y)?)
    }

    /// What goes on from `first` by operators of this level and tighter ones.
    #[tactic(auto, unfolding(crate::specs::ExprRules::operators))]
    fn operators(&self, tokens: &mut Tokens<'_>, first: Tall, level: usize) -> Result<Tall, Stop>
        requires nests { Nests self.now.limits self.now.top (F.pre self.now.expr) (F.post self.now.expr) }
        requires limited { IsLimited self.now.limits self.now.top }
        requires some { 0 < self.now.top }
        requires height { first.height ≤ self.now.top }
        ensures reads { Reads (at_height spec.operators self.now.limits self.now.top level first tokens.old) result tokens.new }
        ensures low { IfOk result (λ x. x.height ≤ self.now.top) }
    {
        if level <= 1 && first.shape.is_target() && is_assignment(tokens.peek()) {
            return self.assignment(tokens, first);
        }
        let left = self.climb(tokens, first, level.max(1))?;
        if level <= 2 && tokens.is(Sort::Question) {
            return self.choice(tokens, left);
        }
        Ok(left)
    }

    /// An expression of level 13.
    #[tactic(auto, unfolding(crate::specs::ExprRules::operand))]
    fn operand(&self, tokens: &mut Tokens<'_>) -> Result<Tall, Stop>
        requires nests { Nests self.now.limits self.now.top (F.pre self.now.expr) (F.post self.now.expr) }
        requires limited { IsLimited self.now.limits self.now.top }
        requires some { 0 < self.now.top }
        requires free { self.now.rooms ≡ primaries.free self.now.top }
        ensures reads { Reads (at_height spec.operand self.now.limits self.now.top tokens.old) result tokens.new }
        ensures low { IfOk result (λ x. x.height ≤ self.now.top) }
    {
        match tokens.peek() {
            Sort::Sign | Sort::Not => self.prefixed(tokens, Goal::Level(13)),
            Sort::Step => self.prefixed(tokens, Goal::Target),
            Sort::Open => {
                if self.top <= 1 {
                    return Err(Stop::Bad);
                }
                self.opened(tokens)
            }
            _ => {
                let left = self.part(tokens)?;
                self.postfix(tokens, left)
            }
        }
    }

    /// An operator before an operand.
    #[tactic(auto, unfolding(crate::specs::ExprRules::prefixed))]
    pub fn prefixed(&self, tokens: &mut Tokens<'_>, goal: Goal) -> Result<Tall, Stop>
        requires nests { Nests self.now.limits self.now.top (F.pre self.now.expr) (F.post self.now.expr) }
        requires limited { IsLimited self.now.limits self.now.top }
        requires some { 0 < self.now.top }
        requires fits { Fits (self.now.top - 1) goal }
        ensures reads { Reads (at_height spec.prefixed self.now.limits self.now.top goal tokens.old) result tokens.new }
        ensures low { IfOk result (λ x. x.height ≤ self.now.top) }
    {
        if self.top <= 1 {
            return Err(Stop::Bad);
        }
        let op = tokens.take()?;
        let x = self.part_of(tokens, goal)?;
        Ok(tall::unary(self.limits, op, x)?)
    }

    #[tactic(auto, unfolding(crate::specs::ExprRules::level))]
    fn level(&self, tokens: &mut Tokens<'_>, level: usize) -> Result<Tall, Stop>
        requires nests { Nests self.now.limits self.now.top (F.pre self.now.expr) (F.post self.now.expr) }
        requires limited { IsLimited self.now.limits self.now.top }
        requires some { 0 < self.now.top }
        requires free { self.now.rooms ≡ primaries.free self.now.top }
        ensures reads { Reads (at_height spec.level self.now.limits self.now.top level tokens.old) result tokens.new }
        ensures low { IfOk result (λ x. x.height ≤ self.now.top) }
    {
        let first = self.operand(tokens)?;
        self.operators(tokens, first, level)
    }

    #[tactic(auto, unfolding(crate::specs::ExprRules::after))]
    fn after(&self, tokens: &mut Tokens<'_>, first: Tall) -> Result<Tall, Stop>
        requires nests { Nests self.now.limits self.now.top (F.pre self.now.expr) (F.post self.now.expr) }
        requires limited { IsLimited self.now.limits self.now.top }
        requires some { 0 < self.now.top }
        requires free { self.now.rooms ≡ primaries.free self.now.top }
        requires height { first.height ≤ self.now.top }
        ensures reads { Reads (at_height spec.after self.now.limits self.now.top first tokens.old) result tokens.new }
        ensures low { IfOk result (λ x. x.height ≤ self.now.top) }
    {
        let part = self.chain(tokens, first)?;
        let left = self.postfix(tokens, part)?;
        self.operators(tokens, left, 1)
    }

    #[tactic(auto, unfolding(crate::specs::ExprRules::target))]
    fn target(&self, tokens: &mut Tokens<'_>) -> Result<Tall, Stop>
        requires nests { Nests self.now.limits self.now.top (F.pre self.now.expr) (F.post self.now.expr) }
        requires limited { IsLimited self.now.limits self.now.top }
        requires some { 0 < self.now.top }
        requires stepping { self.now.rooms ≡ primaries.stepping self.now.top }
        ensures reads { Reads (at_height spec.target self.now.limits self.now.top tokens.old) result tokens.new }
        ensures low { IfOk result (λ x. x.height ≤ self.now.top) }
    {
        let part = self.part(tokens)?;
        if part.shape.is_target() {
            Ok(part)
        } else {
            Err(Stop::Bad)
        }
    }

    #[tactic(auto, unfolding(crate::specs::ExprRules::init))]
    fn init(&self, tokens: &mut Tokens<'_>) -> Result<Tall, Stop>
        requires nests { Nests self.now.limits self.now.top (F.pre self.now.expr) (F.post self.now.expr) }
        requires limited { IsLimited self.now.limits self.now.top }
        requires some { 0 < self.now.top }
        requires free { self.now.rooms ≡ primaries.free self.now.top }
        ensures reads { Reads (at_height spec.init self.now.limits self.now.top tokens.old) result tokens.new }
        ensures low { IfOk result (λ x. x.height ≤ self.now.top) }
    {
        if tokens.is(Sort::Begin) {
            let at = tokens.start();
            let items = self.items(tokens, self.top)?;
            return Ok(tall::braced(self.limits, at, items)?);
        }
        self.level(tokens, 1)
    }
}

/// What is asked for, at most `top` high.
pub fn expr(limits: Limits, tokens: &mut Tokens<'_>, top: usize, goal: Goal) -> Result<Tall, Stop>
    requires limited { IsLimited limits top }
    requires fits { Fits top goal }
    ensures reads { Reads (spec.expr limits top goal tokens.old) result tokens.new }
    ensures low { IfOk result (λ x. x.height ≤ top) }
{
    if top == 0 {
        return Err(Stop::Bad);
    }
    let rooms = match goal {
        Goal::Target => stepping(top),
        _ => free(top),
    };
    let grammar = Grammar {
        limits,
        top,
        rooms,
        expr,
    };
    match goal {
        Goal::Level(level) => grammar.level(tokens, level),
        Goal::Target => grammar.target(tokens),
        Goal::Init => grammar.init(tokens),
        Goal::After(first) => grammar.after(tokens, first),
    }
}
