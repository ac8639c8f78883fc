//! Expressions of level 15, and what follows them (JLS 15.8 to 15.13).
//!
//! The rules take the parser of what stands inside as a parameter, so that each is proved by itself.
ghost use Rattle.std.specs.Prelude.{◌≡◌, ◌<◌, ◌≤◌, ◌-◌, IfOk};
ghost use Rattle.jav_lex.specs.Token.{seen};
ghost use Rattle.jav_parse_expr.specs.ExprRules.{expr};
ghost use Rattle.jav_parse_expr.specs.Nests.{Nests, IsLimited, AreWithin, Fits, in_rooms};
ghost use Rattle.jav_parse_expr.specs.PrimaryRules as spec;
ghost use Rattle.jav_parse_cursor.specs.Reads.{Reads, ReadsToken};

use jav_lex::Token;
use jav_parse_cursor::limits::Limits;
use jav_parse_cursor::sort::Sort;
use jav_parse_cursor::stop::Stop;
use jav_parse_cursor::tall;
use jav_parse_cursor::tall::Tall;
use jav_parse_cursor::tokens::Tokens;
use jav_parse_cursor::types::Names;

/// What is asked for.
#[derive(Drop)]
pub enum Goal {
    /// An expression of this level or a tighter one.
    Level(usize),
    /// The operand of `++` and `--`.
    Target,
    /// An expression, or items in braces.
    Init,
    /// An expression that begins with the one given.
    After(Tall),
}

/// How high an expression of level 15 may be, by its shape. Where something must follow it, what costs
/// height, less is left than where nothing must.
#[derive(Clone, Copy)]
pub struct Rooms {
    pub invocation: usize,
    pub target: usize,
    /// For every other shape.
    pub rest: usize,
}

/// The rules for expressions of at most one height.
#[derive(Clone, Copy)]
pub struct Grammar<F> {
    pub limits: Limits,
    /// The greatest height.
    pub top: usize,
    pub rooms: Rooms,
    pub expr: F,
}

/// Rooms where nothing must follow.
pub fn free(top: usize) -> Rooms
    ensures { result ≡ spec.free top }
{
    Rooms {
        invocation: top,
        target: top,
        rest: top,
    }
}

/// Rooms at the front of a statement: what is no invocation goes on to one, or to an assignment.
pub fn acting(top: usize) -> Rooms
    requires { 0 < top }
    ensures { result ≡ spec.acting top }
{
    Rooms {
        invocation: top,
        target: top - 1,
        rest: top - 1,
    }
}

/// Rooms of the operand of `++` and `--`: what is no target goes on to one.
pub fn stepping(top: usize) -> Rooms
    requires { 0 < top }
    ensures { result ≡ spec.stepping top }
{
    Rooms {
        invocation: top - 1,
        target: top,
        rest: top - 1,
    }
}

fn is_link(sort: Sort) -> bool
    ensures { result ≡ spec.is_link sort }
{
    match sort {
        Sort::Dot | Sort::Left => true,
        _ => false,
    }
}

impl<F: Fn(Limits, &mut Tokens<'_>, usize, Goal) -> Result<Tall, Stop>> Grammar<F> {
    /// An expression in brackets or parentheses of an expression that may be `room` high.
    pub fn inner(&self, tokens: &mut Tokens<'_>, room: usize, goal: Goal) -> Result<Tall, Stop>
        requires nests { Nests self.now.limits self.now.top (F.pre self.now.expr) (F.post self.now.expr) }
        requires room_some { 0 < room }
        requires room_within { room ≤ self.now.top }
        requires fits { Fits (room - 1) goal }
        ensures reads { Reads (expr self.now.limits (room - 1) goal tokens.old) result tokens.new }
        ensures low { IfOk result (λ x. x.height ≤ room - 1) }
    {
        (self.expr)(self.limits, tokens, room - 1, goal)
    }

    /// `.name(..)` after `super`.
    #[tactic(auto, unfolding(crate::specs::PrimaryRules::super_call))]
    pub fn super_call(&self, tokens: &mut Tokens<'_>, at: u32) -> Result<Tall, Stop>
        requires nests { Nests self.now.limits self.now.top (F.pre self.now.expr) (F.post self.now.expr) }
        requires limited { IsLimited self.now.limits self.now.top }
        requires within { AreWithin self.now.top self.now.rooms }
        requires some { 0 < self.now.rooms.invocation }
        ensures reads { Reads (in_rooms spec.super_call self.now.limits self.now.top self.now.rooms at tokens.old) result tokens.new }
        ensures low { IfOk result (λ x. x.height ≤ self.now.top) }
    {
        tokens.expect(Sort::Dot)?;
        let name = tokens.expect(Sort::Name)?;
        let args = self.arguments(tokens, self.rooms.invocation)?;
        Ok(tall::super_called(self.limits, at, name, args)?)
    }

    /// A name, or a call of it.
    #[tactic(auto, unfolding(crate::specs::PrimaryRules::name))]
    fn name(&self, tokens: &mut Tokens<'_>) -> Result<Tall, Stop>
        requires nests { Nests self.now.limits self.now.top (F.pre self.now.expr) (F.post self.now.expr) }
        requires limited { IsLimited self.now.limits self.now.top }
        requires within { AreWithin self.now.top self.now.rooms }
        ensures reads { Reads (in_rooms spec.name self.now.limits self.now.top self.now.rooms tokens.old) result tokens.new }
        ensures low { IfOk result (λ x. x.height ≤ self.now.top) }
    {
        let name = tokens.expect(Sort::Name)?;
        if tokens.is(Sort::Open) {
            if self.rooms.invocation == 0 {
                return Err(Stop::Bad);
            }
            let args = self.arguments(tokens, self.rooms.invocation)?;
            return Ok(tall::called(self.limits, name, args)?);
        }
        if self.rooms.target == 0 {
            return Err(Stop::Bad);
        }
        Ok(tall::name(self.limits, name)?)
    }

    #[tactic(auto, unfolding(crate::specs::PrimaryRules::parens))]
    fn parens(&self, tokens: &mut Tokens<'_>) -> Result<Tall, Stop>
        requires nests { Nests self.now.limits self.now.top (F.pre self.now.expr) (F.post self.now.expr) }
        requires limited { IsLimited self.now.limits self.now.top }
        requires within { AreWithin self.now.top self.now.rooms }
        ensures reads { Reads (in_rooms spec.parens self.now.limits self.now.top self.now.rooms tokens.old) result tokens.new }
        ensures low { IfOk result (λ x. x.height ≤ self.now.top) }
    {
        if self.rooms.rest <= 1 {
            return Err(Stop::Bad);
        }
        let at = tokens.take()?.start;
        let x = self.inner(tokens, self.rooms.rest, Goal::Level(1))?;
        tokens.expect(Sort::Close)?;
        Ok(tall::in_parens(self.limits, at, x)?)
    }

    #[tactic(auto, unfolding(crate::specs::PrimaryRules::primary))]
    fn primary(&self, tokens: &mut Tokens<'_>) -> Result<Tall, Stop>
        requires nests { Nests self.now.limits self.now.top (F.pre self.now.expr) (F.post self.now.expr) }
        requires limited { IsLimited self.now.limits self.now.top }
        requires within { AreWithin self.now.top self.now.rooms }
        ensures reads { Reads (in_rooms spec.primary self.now.limits self.now.top self.now.rooms tokens.old) result tokens.new }
        ensures low { IfOk result (λ x. x.height ≤ self.now.top) }
    {
        match tokens.peek() {
            Sort::Name => self.name(tokens),
            Sort::Literal => {
                if self.rooms.rest == 0 {
                    return Err(Stop::Bad);
                }
                Ok(tall::literal(self.limits, tokens.take()?)?)
            }
            Sort::This => {
                if self.rooms.rest == 0 {
                    return Err(Stop::Bad);
                }
                Ok(tall::this(self.limits, tokens.take()?)?)
            }
            Sort::Super => {
                if self.rooms.invocation == 0 {
                    return Err(Stop::Bad);
                }
                let at = tokens.take()?.start;
                self.super_call(tokens, at)
            }
            Sort::New => self.creation(tokens),
            Sort::Open => self.parens(tokens),
            _ => Err(Stop::Bad),
        }
    }

    /// A call of the method of this name, on `left`.
    #[tactic(auto, unfolding(crate::specs::PrimaryRules::call_on))]
    fn call_on(&self, tokens: &mut Tokens<'_>, left: Tall, name: &Token) -> Result<Tall, Stop>
        requires nests { Nests self.now.limits self.now.top (F.pre self.now.expr) (F.post self.now.expr) }
        requires limited { IsLimited self.now.limits self.now.top }
        requires within { AreWithin self.now.top self.now.rooms }
        requires height { left.height ≤ self.now.top }
        ensures reads { Reads (in_rooms spec.call_on self.now.limits self.now.top self.now.rooms left (seen name.now) tokens.old) result tokens.new }
        ensures low { IfOk result (λ x. x.height ≤ self.now.top) }
    {
        if self.rooms.invocation <= left.height {
            return Err(Stop::Bad);
        }
        let args = self.arguments(tokens, self.rooms.invocation)?;
        Ok(tall::called_on(self.limits, left, name, args)?)
    }

    /// The member of this name, of `left`.
    #[tactic(auto, unfolding(crate::specs::PrimaryRules::member_named))]
    fn member_named(&self, tokens: &mut Tokens<'_>, left: Tall, name: &Token) -> Result<Tall, Stop>
        requires nests { Nests self.now.limits self.now.top (F.pre self.now.expr) (F.post self.now.expr) }
        requires limited { IsLimited self.now.limits self.now.top }
        requires within { AreWithin self.now.top self.now.rooms }
        requires height { left.height ≤ self.now.top }
        ensures reads { Reads (in_rooms spec.member_named self.now.limits self.now.top self.now.rooms left (seen name.now) tokens.old) result tokens.new }
        ensures low { IfOk result (λ x. x.height ≤ self.now.top) }
    {
        if tokens.is(Sort::Open) {
            return self.call_on(tokens, left, name);
        }
        if self.rooms.target <= left.height {
            return Err(Stop::Bad);
        }
        Ok(tall::dotted(self.limits, left, name)?)
    }

    /// A dot and a name, after a part of this height.
    #[tactic(auto, unfolding(crate::specs::PrimaryRules::member_name))]
    fn member_name<'a>(&self, tokens: &mut Tokens<'a>, height: usize) -> Result<&'a Token, Stop>
        ensures { ReadsToken (spec.member_name self.now.top height tokens.old) result tokens.new }
    {
        if self.top <= height {
            return Err(Stop::Bad);
        }
        tokens.take()?;
        tokens.expect(Sort::Name)
    }

    /// A dot and what follows it, after `left`.
    #[tactic(auto, unfolding(crate::specs::PrimaryRules::member))]
    fn member(&self, tokens: &mut Tokens<'_>, left: Tall) -> Result<Tall, Stop>
        requires nests { Nests self.now.limits self.now.top (F.pre self.now.expr) (F.post self.now.expr) }
        requires limited { IsLimited self.now.limits self.now.top }
        requires within { AreWithin self.now.top self.now.rooms }
        requires height { left.height ≤ self.now.top }
        ensures reads { Reads (in_rooms spec.member self.now.limits self.now.top self.now.rooms left tokens.old) result tokens.new }
        ensures low { IfOk result (λ x. x.height ≤ self.now.top) }
    {
        let name = self.member_name(tokens, left.height)?;
        self.member_named(tokens, left, name)
    }

    /// An index after its bracket, after `left`.
    #[tactic(auto, unfolding(crate::specs::PrimaryRules::index))]
    fn index(&self, tokens: &mut Tokens<'_>, left: Tall) -> Result<Tall, Stop>
        requires nests { Nests self.now.limits self.now.top (F.pre self.now.expr) (F.post self.now.expr) }
        requires limited { IsLimited self.now.limits self.now.top }
        requires within { AreWithin self.now.top self.now.rooms }
        requires height { left.height < self.now.rooms.target }
        ensures reads { Reads (in_rooms spec.index self.now.limits self.now.top self.now.rooms left tokens.old) result tokens.new }
        ensures low { IfOk result (λ x. x.height ≤ self.now.top) }
    {
        let i = self.inner(tokens, self.rooms.target, Goal::Level(1))?;
        tokens.expect(Sort::Right)?;
        Ok(tall::indexed(self.limits, left, i)?)
    }

    /// An index after `left`.
    #[tactic(auto, unfolding(crate::specs::PrimaryRules::item))]
    fn item(&self, tokens: &mut Tokens<'_>, left: Tall) -> Result<Tall, Stop>
        requires nests { Nests self.now.limits self.now.top (F.pre self.now.expr) (F.post self.now.expr) }
        requires limited { IsLimited self.now.limits self.now.top }
        requires within { AreWithin self.now.top self.now.rooms }
        requires height { left.height ≤ self.now.top }
        ensures reads { Reads (in_rooms spec.item self.now.limits self.now.top self.now.rooms left tokens.old) result tokens.new }
        ensures low { IfOk result (λ x. x.height ≤ self.now.top) }
    {
        if left.shape.is_array() || self.rooms.target <= left.height {
            return Err(Stop::Bad);
        }
        tokens.take()?;
        self.index(tokens, left)
    }

    #[tactic(auto, unfolding(crate::specs::PrimaryRules::link))]
    fn link(&self, tokens: &mut Tokens<'_>, left: Tall) -> Result<Tall, Stop>
        requires nests { Nests self.now.limits self.now.top (F.pre self.now.expr) (F.post self.now.expr) }
        requires limited { IsLimited self.now.limits self.now.top }
        requires within { AreWithin self.now.top self.now.rooms }
        requires height { left.height ≤ self.now.top }
        ensures reads { Reads (in_rooms spec.link self.now.limits self.now.top self.now.rooms left tokens.old) result tokens.new }
        ensures low { IfOk result (λ x. x.height ≤ self.now.top) }
    {
        match tokens.peek() {
            Sort::Dot => self.member(tokens, left),
            Sort::Left => self.item(tokens, left),
            _ => Err(Stop::Bad),
        }
    }

    /// What goes on from `first` by members and indexes.
    pub fn chain(&self, tokens: &mut Tokens<'_>, first: Tall) -> Result<Tall, Stop>
        requires nests { Nests self.now.limits self.now.top (F.pre self.now.expr) (F.post self.now.expr) }
        requires limited { IsLimited self.now.limits self.now.top }
        requires within { AreWithin self.now.top self.now.rooms }
        requires height { first.height ≤ self.now.top }
        ensures reads { Reads (in_rooms spec.chain self.now.limits self.now.top self.now.rooms self.now.top first tokens.old) result tokens.new }
        ensures low { IfOk result (λ x. x.height ≤ self.now.top) }
    {
        let mut left = first;
        for _turn in 0..self.top {
            if !is_link(tokens.peek()) {
                return Ok(left);
            }
            left = self.link(tokens, left)?;
        }
        if is_link(tokens.peek()) {
            return Err(Stop::Bad);
        }
        Ok(left)
    }

    /// An expression of level 15, or an array creation.
    #[tactic(auto, unfolding(crate::specs::PrimaryRules::part))]
    pub fn part(&self, tokens: &mut Tokens<'_>) -> Result<Tall, Stop>
        requires nests { Nests self.now.limits self.now.top (F.pre self.now.expr) (F.post self.now.expr) }
        requires limited { IsLimited self.now.limits self.now.top }
        requires within { AreWithin self.now.top self.now.rooms }
        ensures reads { Reads (in_rooms spec.part self.now.limits self.now.top self.now.rooms tokens.old) result tokens.new }
        ensures low { IfOk result (λ x. x.height ≤ self.now.top) }
    {
        let first = self.primary(tokens)?;
        self.chain(tokens, first)
    }

    /// The variable or field of these names, or a call of it.
    #[tactic(auto, unfolding(crate::specs::PrimaryRules::named))]
    pub fn named(&self, tokens: &mut Tokens<'_>, names: Names<'_>) -> Result<Tall, Stop>
        requires nests { Nests self.now.limits self.now.top (F.pre self.now.expr) (F.post self.now.expr) }
        requires limited { IsLimited self.now.limits self.now.top }
        requires within { AreWithin self.now.top self.now.rooms }
        ensures reads { Reads (in_rooms spec.named self.now.limits self.now.top self.now.rooms names.entry tokens.old) result tokens.new }
        ensures low { IfOk result (λ x. x.height ≤ self.now.top) }
    {
        if tokens.is(Sort::Open) {
            if self.rooms.invocation < names.count() {
                return Err(Stop::Bad);
            }
            let args = self.arguments(tokens, self.rooms.invocation)?;
            return Ok(names.call(self.limits, args)?);
        }
        if self.rooms.target < names.count() {
            return Err(Stop::Bad);
        }
        Ok(names.field(self.limits)?)
    }

    /// An index of the array that these names are, after its bracket.
    #[tactic(auto, unfolding(crate::specs::PrimaryRules::named_item))]
    pub fn named_item(&self, tokens: &mut Tokens<'_>, names: Names<'_>) -> Result<Tall, Stop>
        requires nests { Nests self.now.limits self.now.top (F.pre self.now.expr) (F.post self.now.expr) }
        requires limited { IsLimited self.now.limits self.now.top }
        requires within { AreWithin self.now.top self.now.rooms }
        ensures reads { Reads (in_rooms spec.named_item self.now.limits self.now.top self.now.rooms names.entry tokens.old) result tokens.new }
        ensures low { IfOk result (λ x. x.height ≤ self.now.top) }
    {
        if self.rooms.target <= names.count() {
            return Err(Stop::Bad);
        }
        let left = names.field(self.limits)?;
        self.index(tokens, left)
    }
}
