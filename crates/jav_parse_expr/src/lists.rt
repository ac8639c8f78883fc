//! Arguments in parentheses and items in braces (JLS 15.12, 10.6).
ghost use Rattle.std.specs.Prelude.{◌<◌, ◌≤◌, ◌-◌, IfOk};
ghost use Rattle.jav_parse_expr.specs.ExprRules.{expr};
ghost use Rattle.jav_parse_expr.specs.Nests.{Nests, IsLimited};
ghost use Rattle.jav_parse_expr.specs.PrimaryRules as spec;
ghost use Rattle.jav_parse_cursor.specs.Reads.{Reads};
ghost use Rattle.jav_parse_expr.specs.declared.primary.Goal.TheVariants.{Level, Init};

use crate::primary::{Goal, Grammar};
use jav_parse_cursor::limits::Limits;
use jav_parse_cursor::sort::Sort;
use jav_parse_cursor::stop::Stop;
use jav_parse_cursor::tall;
use jav_parse_cursor::tall::{Listed, Tall};
use jav_parse_cursor::tokens::Tokens;

impl<F: Fn(Limits, &mut Tokens<'_>, usize, Goal) -> Result<Tall, Stop>> Grammar<F> {
    /// Further arguments, each after a comma.
    fn further_arguments(
        &self,
        tokens: &mut Tokens<'_>,
        room: usize,
        first: Listed,
    ) -> Result<Listed, Stop>
        requires nests { Nests self.now.limits self.now.top (F.pre self.now.expr) (F.post self.now.expr) }
        requires limited { IsLimited self.now.limits self.now.top }
        requires room_some { 1 < room }
        requires room_within { room ≤ self.now.top }
        requires height { first.height ≤ room - 1 }
        ensures reads { Reads (spec.further_arguments (expr self.now.limits (room - 1) (Level 1)) (self.now.limits.most - 1) first tokens.old) result tokens.new }
        ensures low { IfOk result (λ x. x.height ≤ room - 1) }
    {
        let mut all = first;
        for _turn in 1..self.limits.most {
            if !tokens.is(Sort::Comma) {
                return Ok(all);
            }
            tokens.take()?;
            let x = self.inner(tokens, room, Goal::Level(1))?;
            all = tall::with(all, x)?;
        }
        Ok(all)
    }

    /// Arguments after their parenthesis, each less than `room` high.
    #[tactic(auto, unfolding(crate::specs::PrimaryRules::some_arguments))]
    fn some_arguments(&self, tokens: &mut Tokens<'_>, room: usize) -> Result<Listed, Stop>
        requires nests { Nests self.now.limits self.now.top (F.pre self.now.expr) (F.post self.now.expr) }
        requires limited { IsLimited self.now.limits self.now.top }
        requires room_some { 1 < room }
        requires room_within { room ≤ self.now.top }
        ensures reads { Reads (spec.some_arguments self.now.limits.most (expr self.now.limits (room - 1) (Level 1)) tokens.old) result tokens.new }
        ensures low { IfOk result (λ x. x.height ≤ room - 1) }
    {
        let first = self.inner(tokens, room, Goal::Level(1))?;
        let one = tall::with(tall::no_exprs(self.limits), first)?;
        let all = self.further_arguments(tokens, room, one)?;
        tokens.expect(Sort::Close)?;
        Ok(all)
    }

    /// The same after the first parenthesis.
    #[tactic(auto, unfolding(crate::specs::PrimaryRules::arguments_after))]
    fn arguments_after(&self, tokens: &mut Tokens<'_>, room: usize) -> Result<Listed, Stop>
        requires nests { Nests self.now.limits self.now.top (F.pre self.now.expr) (F.post self.now.expr) }
        requires limited { IsLimited self.now.limits self.now.top }
        requires room_within { room ≤ self.now.top }
        ensures reads { Reads (spec.arguments_after self.now.limits.most room (expr self.now.limits (room - 1) (Level 1)) tokens.old) result tokens.new }
        ensures low { IfOk result (λ x. x.height ≤ room - 1) }
    {
        if tokens.is(Sort::Close) {
            tokens.take()?;
            return Ok(tall::no_exprs(self.limits));
        }
        if room <= 1 {
            return Err(Stop::Bad);
        }
        self.some_arguments(tokens, room)
    }

    /// Arguments in parentheses, of an invocation that may be `room` high.
    #[tactic(auto, unfolding(crate::specs::PrimaryRules::arguments))]
    pub fn arguments(&self, tokens: &mut Tokens<'_>, room: usize) -> Result<Listed, Stop>
        requires nests { Nests self.now.limits self.now.top (F.pre self.now.expr) (F.post self.now.expr) }
        requires limited { IsLimited self.now.limits self.now.top }
        requires room_within { room ≤ self.now.top }
        ensures reads { Reads (spec.arguments self.now.limits.most room (expr self.now.limits (room - 1) (Level 1)) tokens.old) result tokens.new }
        ensures low { IfOk result (λ x. x.height ≤ room - 1) }
    {
        tokens.expect(Sort::Open)?;
        self.arguments_after(tokens, room)
    }

    /// Further items in braces, each after a comma, and perhaps a last comma.
    fn further_items(
        &self,
        tokens: &mut Tokens<'_>,
        room: usize,
        first: Listed,
    ) -> Result<Listed, Stop>
        requires nests { Nests self.now.limits self.now.top (F.pre self.now.expr) (F.post self.now.expr) }
        requires limited { IsLimited self.now.limits self.now.top }
        requires room_some { 1 < room }
        requires room_within { room ≤ self.now.top }
        requires height { first.height ≤ room - 1 }
        ensures reads { Reads (spec.further_items (expr self.now.limits (room - 1) Init) self.now.limits.turns first tokens.old) result tokens.new }
        ensures low { IfOk result (λ x. x.height ≤ room - 1) }
    {
        let mut all = first;
        for _turn in 0..self.limits.turns {
            if !tokens.is(Sort::Comma) {
                return Ok(all);
            }
            tokens.take()?;
            if tokens.is(Sort::Finish) {
                return Ok(all);
            }
            let x = self.inner(tokens, room, Goal::Init)?;
            all = tall::with(all, x)?;
        }
        Ok(all)
    }

    /// Items in braces after the first brace, each less than `room` high.
    #[tactic(auto, unfolding(crate::specs::PrimaryRules::some_items))]
    fn some_items(&self, tokens: &mut Tokens<'_>, room: usize) -> Result<Listed, Stop>
        requires nests { Nests self.now.limits self.now.top (F.pre self.now.expr) (F.post self.now.expr) }
        requires limited { IsLimited self.now.limits self.now.top }
        requires room_some { 1 < room }
        requires room_within { room ≤ self.now.top }
        ensures reads { Reads (spec.some_items self.now.limits.turns (expr self.now.limits (room - 1) Init) tokens.old) result tokens.new }
        ensures low { IfOk result (λ x. x.height ≤ room - 1) }
    {
        let first = self.inner(tokens, room, Goal::Init)?;
        let one = tall::with(tall::no_exprs(self.limits), first)?;
        let all = self.further_items(tokens, room, one)?;
        tokens.expect(Sort::Finish)?;
        Ok(all)
    }

    /// The same after the first brace.
    #[tactic(auto, unfolding(crate::specs::PrimaryRules::items_after))]
    fn items_after(&self, tokens: &mut Tokens<'_>, room: usize) -> Result<Listed, Stop>
        requires nests { Nests self.now.limits self.now.top (F.pre self.now.expr) (F.post self.now.expr) }
        requires limited { IsLimited self.now.limits self.now.top }
        requires room_within { room ≤ self.now.top }
        ensures reads { Reads (spec.items_after self.now.limits.turns room (expr self.now.limits (room - 1) Init) tokens.old) result tokens.new }
        ensures low { IfOk result (λ x. x.height ≤ room - 1) }
    {
        if tokens.is(Sort::Finish) {
            tokens.take()?;
            return Ok(tall::no_exprs(self.limits));
        }
        if room <= 1 {
            return Err(Stop::Bad);
        }
        self.some_items(tokens, room)
    }

    /// Items in braces, of an expression that may be `room` high.
    #[tactic(auto, unfolding(crate::specs::PrimaryRules::items))]
    pub fn items(&self, tokens: &mut Tokens<'_>, room: usize) -> Result<Listed, Stop>
        requires nests { Nests self.now.limits self.now.top (F.pre self.now.expr) (F.post self.now.expr) }
        requires limited { IsLimited self.now.limits self.now.top }
        requires room_within { room ≤ self.now.top }
        ensures reads { Reads (spec.items self.now.limits.turns room (expr self.now.limits (room - 1) Init) tokens.old) result tokens.new }
        ensures low { IfOk result (λ x. x.height ≤ room - 1) }
    {
        tokens.expect(Sort::Begin)?;
        self.items_after(tokens, room)
    }
}
