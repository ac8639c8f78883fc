//! Casts, and expressions in parentheses (JLS 15.16, 15.8.5).
ghost use Rattle.std.specs.Prelude.{◌≡◌, ◌<◌, ◌≤◌, ◌-◌, IfOk};
ghost use Rattle.jav_parse_expr.specs.ExprRules as spec;
ghost use Rattle.jav_parse_expr.specs.Nests.{Nests, IsLimited, at_height};
ghost use Rattle.jav_parse_expr.specs.PrimaryRules as primaries;
ghost use Rattle.jav_parse_cursor.specs.Reads.{Reads};

use crate::primary::{Goal, Grammar, free};
use jav_parse_cursor::limits::Limits;
use jav_parse_cursor::sort::Sort;
use jav_parse_cursor::stop::Stop;
use jav_parse_cursor::tall;
use jav_parse_cursor::tall::Tall;
use jav_parse_cursor::tokens::Tokens;
use jav_parse_cursor::types::{Names, array_of, brackets, primitive, qualified};
use jav_tree::TypeName;

/// Whether what is cast to a class or array type may begin with such a token (JLS 15.16).
fn begins_operand(sort: Sort) -> bool
    ensures { result ≡ spec.begins_operand sort }
{
    match sort {
        Sort::Name | Sort::Literal | Sort::This | Sort::Super | Sort::New => true,
        Sort::Open | Sort::Not => true,
        _ => false,
    }
}

impl<F: Copy + Fn(Limits, &mut Tokens<'_>, usize, Goal) -> Result<Tall, Stop>> Grammar<F> {
    /// The operand of a cast.
    #[tactic(auto, unfolding(crate::specs::ExprRules::cast))]
    fn cast(&self, tokens: &mut Tokens<'_>, at: u32, ty: TypeName) -> Result<Tall, Stop>
        requires nests { Nests self.now.limits self.now.top (F.pre self.now.expr) (F.post self.now.expr) }
        requires limited { IsLimited self.now.limits self.now.top }
        requires some { 0 < self.now.top }
        requires more { 1 < self.now.top }
        ensures reads { Reads (at_height spec.cast self.now.limits self.now.top at ty tokens.old) result tokens.new }
        ensures low { IfOk result (λ x. x.height ≤ self.now.top) }
    {
        let x = self.part_of(tokens, Goal::Level(13))?;
        Ok(tall::cast(self.limits, at, ty, x)?)
    }

    /// The rest of a cast to an array type, after `pairs` pairs of brackets.
    #[tactic(auto, unfolding(crate::specs::ExprRules::array_cast))]
    fn array_cast(
        &self,
        tokens: &mut Tokens<'_>,
        at: u32,
        base: TypeName,
        pairs: usize,
    ) -> Result<Tall, Stop>
        requires nests { Nests self.now.limits self.now.top (F.pre self.now.expr) (F.post self.now.expr) }
        requires limited { IsLimited self.now.limits self.now.top }
        requires some { 0 < self.now.top }
        requires more { 1 < self.now.top }
        ensures reads { Reads (at_height spec.array_cast self.now.limits self.now.top at base pairs tokens.old) result tokens.new }
        ensures low { IfOk result (λ x. x.height ≤ self.now.top) }
    {
        tokens.expect(Sort::Close)?;
        if begins_operand(tokens.peek()) {
            let ty = array_of(self.limits, base, pairs)?;
            self.cast(tokens, at, ty)
        } else {
            Err(Stop::Bad)
        }
    }

    /// A cast to a primitive type, or to an array of one, after its parenthesis.
    #[tactic(auto, unfolding(crate::specs::ExprRules::primitive_cast))]
    fn primitive_cast(&self, tokens: &mut Tokens<'_>, at: u32) -> Result<Tall, Stop>
        requires nests { Nests self.now.limits self.now.top (F.pre self.now.expr) (F.post self.now.expr) }
        requires limited { IsLimited self.now.limits self.now.top }
        requires some { 0 < self.now.top }
        requires more { 1 < self.now.top }
        ensures reads { Reads (at_height spec.primitive_cast self.now.limits self.now.top at tokens.old) result tokens.new }
        ensures low { IfOk result (λ x. x.height ≤ self.now.top) }
    {
        let base = primitive(self.limits, tokens)?;
        let pairs = brackets(self.limits, tokens, 0)?;
        if pairs == 0 {
            tokens.expect(Sort::Close)?;
            return self.cast(tokens, at, base);
        }
        self.array_cast(tokens, at, base, pairs)
    }

    /// What goes on from an expression in parentheses.
    #[tactic(auto, unfolding(crate::specs::ExprRules::after_parens))]
    fn after_parens(&self, tokens: &mut Tokens<'_>, left: Tall) -> Result<Tall, Stop>
        requires nests { Nests self.now.limits self.now.top (F.pre self.now.expr) (F.post self.now.expr) }
        requires limited { IsLimited self.now.limits self.now.top }
        requires some { 0 < self.now.top }
        requires free { self.now.rooms ≡ primaries.free self.now.top }
        requires height { left.height ≤ self.now.top }
        ensures reads { Reads (at_height spec.after_parens self.now.limits self.now.top left tokens.old) result tokens.new }
        ensures low { IfOk result (λ x. x.height ≤ self.now.top) }
    {
        let part = self.chain(tokens, left)?;
        self.postfix(tokens, part)
    }

    /// The rest of an expression in parentheses, and what goes on from it.
    #[tactic(auto, unfolding(crate::specs::ExprRules::closed))]
    fn closed(&self, tokens: &mut Tokens<'_>, at: u32, x: Tall) -> Result<Tall, Stop>
        requires nests { Nests self.now.limits self.now.top (F.pre self.now.expr) (F.post self.now.expr) }
        requires limited { IsLimited self.now.limits self.now.top }
        requires some { 0 < self.now.top }
        requires free { self.now.rooms ≡ primaries.free self.now.top }
        requires height { x.height < self.now.top }
        ensures reads { Reads (at_height spec.closed self.now.limits self.now.top at x tokens.old) result tokens.new }
        ensures low { IfOk result (λ x. x.height ≤ self.now.top) }
    {
        tokens.expect(Sort::Close)?;
        let left = tall::in_parens(self.limits, at, x)?;
        self.after_parens(tokens, left)
    }

    /// An expression in parentheses that begins with `first`.
    #[tactic(auto, unfolding(crate::specs::ExprRules::goes_on))]
    fn goes_on(&self, tokens: &mut Tokens<'_>, at: u32, first: Tall) -> Result<Tall, Stop>
        requires nests { Nests self.now.limits self.now.top (F.pre self.now.expr) (F.post self.now.expr) }
        requires limited { IsLimited self.now.limits self.now.top }
        requires some { 0 < self.now.top }
        requires free { self.now.rooms ≡ primaries.free self.now.top }
        requires more { 1 < self.now.top }
        requires height { first.height < self.now.top }
        ensures reads { Reads (at_height spec.goes_on self.now.limits self.now.top at first tokens.old) result tokens.new }
        ensures low { IfOk result (λ x. x.height ≤ self.now.top) }
    {
        let x = self.part_of(tokens, Goal::After(first))?;
        self.closed(tokens, at, x)
    }

    /// A cast to a type of this name, or the variable or field of this name in parentheses, after the
    /// last parenthesis.
    #[tactic(auto, unfolding(crate::specs::ExprRules::name_closed))]
    fn name_closed(&self, tokens: &mut Tokens<'_>, at: u32, names: Names<'_>) -> Result<Tall, Stop>
        requires nests { Nests self.now.limits self.now.top (F.pre self.now.expr) (F.post self.now.expr) }
        requires limited { IsLimited self.now.limits self.now.top }
        requires some { 0 < self.now.top }
        requires free { self.now.rooms ≡ primaries.free self.now.top }
        requires more { 1 < self.now.top }
        ensures reads { Reads (at_height spec.name_closed self.now.limits self.now.top at names.entry tokens.old) result tokens.new }
        ensures low { IfOk result (λ x. x.height ≤ self.now.top) }
    {
        if begins_operand(tokens.peek()) {
            let ty = names.named(self.limits)?;
            return self.cast(tokens, at, ty);
        }
        if self.top <= names.count() {
            return Err(Stop::Bad);
        }
        let x = names.field(self.limits)?;
        let left = tall::in_parens(self.limits, at, x)?;
        self.after_parens(tokens, left)
    }

    /// The rules for what stands in parentheses.
    fn lower(&self) -> Grammar<F>
        requires more { 1 < self.now.top }
        ensures limits { result.limits ≡ self.now.limits }
        ensures top { result.top ≡ self.now.top - 1 }
        ensures rooms { result.rooms ≡ primaries.free (self.now.top - 1) }
        ensures expr { result.expr ≡ self.now.expr }
    {
        Grammar {
            limits: self.limits,
            top: self.top - 1,
            rooms: free(self.top - 1),
            expr: self.expr,
        }
    }

    /// A cast, or an expression in parentheses, after the first parenthesis and names.
    #[tactic(auto, unfolding(crate::specs::ExprRules::opened_name))]
    fn opened_name(&self, tokens: &mut Tokens<'_>, at: u32) -> Result<Tall, Stop>
        requires nests { Nests self.now.limits self.now.top (F.pre self.now.expr) (F.post self.now.expr) }
        requires limited { IsLimited self.now.limits self.now.top }
        requires some { 0 < self.now.top }
        requires free { self.now.rooms ≡ primaries.free self.now.top }
        requires more { 1 < self.now.top }
        ensures reads { Reads (at_height spec.opened_name self.now.limits self.now.top at tokens.old) result tokens.new }
        ensures low { IfOk result (λ x. x.height ≤ self.now.top) }
    {
        let names = qualified(self.limits, tokens)?;
        match tokens.peek() {
            Sort::Close => {
                tokens.take()?;
                self.name_closed(tokens, at, names)
            }
            Sort::Left => {
                tokens.take()?;
                if tokens.is(Sort::Right) {
                    tokens.take()?;
                    let pairs = brackets(self.limits, tokens, 1)?;
                    return self.array_cast(tokens, at, names.named(self.limits)?, pairs);
                }
                let first = self.lower().named_item(tokens, names)?;
                self.goes_on(tokens, at, first)
            }
            _ => {
                let first = self.lower().named(tokens, names)?;
                self.goes_on(tokens, at, first)
            }
        }
    }

    /// A cast, or an expression in parentheses and what goes on from it.
    #[tactic(auto, unfolding(crate::specs::ExprRules::opened))]
    pub fn opened(&self, tokens: &mut Tokens<'_>) -> Result<Tall, Stop>
        requires nests { Nests self.now.limits self.now.top (F.pre self.now.expr) (F.post self.now.expr) }
        requires limited { IsLimited self.now.limits self.now.top }
        requires some { 0 < self.now.top }
        requires free { self.now.rooms ≡ primaries.free self.now.top }
        requires more { 1 < self.now.top }
        ensures reads { Reads (at_height spec.opened self.now.limits self.now.top tokens.old) result tokens.new }
        ensures low { IfOk result (λ x. x.height ≤ self.now.top) }
    {
        let at = tokens.take()?.start;
        match tokens.peek() {
            Sort::Prim => self.primitive_cast(tokens, at),
            Sort::Name => self.opened_name(tokens, at),
            _ => {
                let x = self.part_of(tokens, Goal::Level(1))?;
                self.closed(tokens, at, x)
            }
        }
    }
}
