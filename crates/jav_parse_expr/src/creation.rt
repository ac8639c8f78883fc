//! Creations of objects and of arrays (JLS 15.9, 15.10).
ghost use Rattle.std.specs.Prelude.{◌≡◌, ◌<◌, ◌≤◌, ◌+◌, ◌-◌, ◌^◌, IfOk};
ghost use Rattle.jav_parse_expr.specs.ExprRules.{inside};
ghost use Rattle.jav_parse_expr.specs.Nests.{Nests, IsLimited, AreWithin, in_rooms};
ghost use Rattle.jav_parse_expr.specs.PrimaryRules as spec;
ghost use Rattle.jav_parse_cursor.specs.Reads.{Reads};

use crate::primary::{Goal, Grammar};
use jav_parse_cursor::limits::Limits;
use jav_parse_cursor::sort::Sort;
use jav_parse_cursor::stop::Stop;
use jav_parse_cursor::tall;
use jav_parse_cursor::tall::{Listed, Tall};
use jav_parse_cursor::tokens::Tokens;
use jav_parse_cursor::types::{array_of, base_type, brackets, primitive};
use jav_tree::TypeName;

impl<F: Fn(Limits, &mut Tokens<'_>, usize, Goal) -> Result<Tall, Stop>> Grammar<F> {
    /// Pairs of empty brackets and items in braces, after the first bracket of `new T[].. {..}`.
    #[tactic(auto, unfolding(crate::specs::PrimaryRules::filled))]
    fn filled(&self, tokens: &mut Tokens<'_>, at: u32, base: TypeName) -> Result<Tall, Stop>
        requires nests { Nests self.now.limits self.now.top (F.pre self.now.expr) (F.post self.now.expr) }
        requires limited { IsLimited self.now.limits self.now.top }
        requires within { AreWithin self.now.top self.now.rooms }
        requires some { 0 < self.now.rooms.rest }
        ensures reads { Reads (in_rooms spec.filled self.now.limits self.now.top self.now.rooms at base tokens.old) result tokens.new }
        ensures low { IfOk result (λ x. x.height ≤ self.now.rooms.rest) }
    {
        tokens.expect(Sort::Right)?;
        let pairs = brackets(self.limits, tokens, 1)?;
        let items = self.items(tokens, self.rooms.rest)?;
        let ty = array_of(self.limits, base, pairs)?;
        Ok(tall::filled(self.limits, at, ty, items)?)
    }

    /// Pairs of empty brackets after `count` sizes, after the first bracket of those pairs.
    #[tactic(auto, unfolding(crate::specs::PrimaryRules::empty_pairs))]
    fn empty_pairs(
        &self,
        tokens: &mut Tokens<'_>,
        at: u32,
        base: TypeName,
        sizes: Listed,
        count: usize,
    ) -> Result<Tall, Stop>
        requires limited { IsLimited self.now.limits self.now.top }
        requires sizes_height { sizes.height < 2 ^ 62 }
        requires few { count < self.now.limits.most }
        ensures reads { Reads (in_rooms spec.empty_pairs self.now.limits self.now.top self.now.rooms at base sizes count tokens.old) result tokens.new }
        ensures low { IfOk result (λ x. x.height ≡ sizes.height + 1) }
    {
        let limits = self.limits;
        tokens.expect(Sort::Right)?;
        let pairs = brackets(limits, tokens, count + 1)?;
        let empty = pairs - count;
        // a tree counts them in 32 bits
        if empty > u32::MAX as usize {
            return Err(Stop::OutOfMemory);
        }
        Ok(tall::sized(limits, at, base, sizes, empty as u32)?)
    }

    /// Further sizes, each in brackets, and pairs of empty brackets.
    fn further_sizes(
        &self,
        tokens: &mut Tokens<'_>,
        at: u32,
        base: TypeName,
        first: Listed,
    ) -> Result<Tall, Stop>
        requires nests { Nests self.now.limits self.now.top (F.pre self.now.expr) (F.post self.now.expr) }
        requires limited { IsLimited self.now.limits self.now.top }
        requires within { AreWithin self.now.top self.now.rooms }
        requires some { 1 < self.now.rooms.rest }
        requires height { first.height < self.now.rooms.rest }
        ensures reads { Reads (in_rooms spec.further_sizes self.now.limits self.now.top self.now.rooms at base (self.now.limits.most - 1) 1 first tokens.old) result tokens.new }
        ensures low { IfOk result (λ x. x.height ≤ self.now.rooms.rest) }
    {
        let mut sizes = first;
        for count in 1..self.limits.most {
            if !tokens.is(Sort::Left) {
                return Ok(tall::sized(self.limits, at, base, sizes, 0)?);
            }
            tokens.take()?;
            if tokens.is(Sort::Right) {
                return self.empty_pairs(tokens, at, base, sizes, count);
            }
            let size = self.inner(tokens, self.rooms.rest, Goal::Level(1))?;
            tokens.expect(Sort::Right)?;
            sizes = tall::with(sizes, size)?;
        }
        Ok(tall::sized(self.limits, at, base, sizes, 0)?)
    }

    /// Sizes and pairs of empty brackets, after the first bracket of `new T[e]..[]..`.
    #[tactic(auto, unfolding(crate::specs::PrimaryRules::sized))]
    fn sized(&self, tokens: &mut Tokens<'_>, at: u32, base: TypeName) -> Result<Tall, Stop>
        requires nests { Nests self.now.limits self.now.top (F.pre self.now.expr) (F.post self.now.expr) }
        requires limited { IsLimited self.now.limits self.now.top }
        requires within { AreWithin self.now.top self.now.rooms }
        requires some { 1 < self.now.rooms.rest }
        ensures reads { Reads (in_rooms spec.sized self.now.limits self.now.top self.now.rooms at base tokens.old) result tokens.new }
        ensures low { IfOk result (λ x. x.height ≤ self.now.rooms.rest) }
    {
        let size = self.inner(tokens, self.rooms.rest, Goal::Level(1))?;
        tokens.expect(Sort::Right)?;
        let first = tall::with(tall::no_exprs(self.limits), size)?;
        self.further_sizes(tokens, at, base, first)
    }

    /// An array creation after its base type.
    #[tactic(auto, unfolding(crate::specs::PrimaryRules::array))]
    fn array(&self, tokens: &mut Tokens<'_>, at: u32, base: TypeName) -> Result<Tall, Stop>
        requires nests { Nests self.now.limits self.now.top (F.pre self.now.expr) (F.post self.now.expr) }
        requires limited { IsLimited self.now.limits self.now.top }
        requires within { AreWithin self.now.top self.now.rooms }
        ensures reads { Reads (in_rooms spec.array self.now.limits self.now.top self.now.rooms at base tokens.old) result tokens.new }
        ensures low { IfOk result (λ x. x.height ≤ self.now.top) }
    {
        if self.rooms.rest == 0 {
            return Err(Stop::Bad);
        }
        tokens.expect(Sort::Left)?;
        if tokens.is(Sort::Right) {
            return self.filled(tokens, at, base);
        }
        if self.rooms.rest == 1 {
            return Err(Stop::Bad);
        }
        self.sized(tokens, at, base)
    }

    /// `new T(..)`, or an array creation.
    #[tactic(auto, unfolding(crate::specs::PrimaryRules::creation))]
    pub fn creation(&self, tokens: &mut Tokens<'_>) -> Result<Tall, Stop>
        requires nests { Nests self.now.limits self.now.top (F.pre self.now.expr) (F.post self.now.expr) }
        requires limited { IsLimited self.now.limits self.now.top }
        requires within { AreWithin self.now.top self.now.rooms }
        ensures reads { Reads (in_rooms spec.creation self.now.limits self.now.top self.now.rooms tokens.old) result tokens.new }
        ensures low { IfOk result (λ x. x.height ≤ self.now.top) }
    {
        if self.rooms.invocation == 0 {
            return Err(Stop::Bad);
        }
        let at = tokens.take()?.start;
        if tokens.is(Sort::Prim) {
            if self.rooms.rest == 0 {
                return Err(Stop::Bad);
            }
            let base = primitive(self.limits, tokens)?;
            return self.array(tokens, at, base);
        }
        let ty = base_type(self.limits, tokens)?;
        if tokens.is(Sort::Open) {
            let args = self.arguments(tokens, self.rooms.invocation)?;
            return Ok(tall::created(self.limits, at, ty, args)?);
        }
        self.array(tokens, at, ty)
    }
}
