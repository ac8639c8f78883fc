//! Names with dots, and types (JLS 4, 6.5, 10.1).
ghost use Rattle.std.specs.Prelude.{◌≡◌, ◌<◌, ◌≤◌, ◌+◌, ◌-◌, ◌^◌, ◌∷◌, [], IfOk, length, max};
ghost use Rattle.jav_lex.specs.Token.{seen, all_seen};
ghost use Rattle.jav_tree.specs.declared.types.TypeName.TheVariants as ty;
ghost use Rattle.jav_parse_cursor.specs.Nodes as made;
ghost use Rattle.jav_parse_cursor.specs.Reads.{Reads, ReadsOver};
ghost use Rattle.jav_parse_cursor.specs.TypeRules as spec;

use crate::limits::Limits;
use crate::sort::Sort;
use crate::stop::Stop;
use crate::tall;
use crate::tall::{Listed, Tall};
use crate::tokens::Tokens;
use jav_lex::Token;
use jav_tree::TypeName;
use mol_base::{Boxed, OutOfMemory, Text};
use std::marker::Model;

/// A name, and the dots and names that follow it. Contracts see the tokens.
#[derive(Drop)]
pub struct Names<'a> {
    first: &'a Token,
    rest: &'a [Token],
}

impl<'a> Model for Names<'a> {
    ghost use Rattle.std.specs.Prelude.{List, ◌∷◌};
    ghost use Rattle.mol_base.specs.Token as token;
    ghost use Rattle.jav_lex.specs.Token.{seen, all_seen};

    ghost Value = { List token.Token };

    ghost view = { λ names. seen names.first.now ∷ all_seen names.rest.now };
}

/// Takes the dots and names after the first name.
fn further_names(limits: Limits, tokens: &mut Tokens<'_>, first: &Token) -> Result<(), Stop>
    ensures { ReadsOver (spec.further_names limits.turns (seen first.now ∷ []) tokens.old) result tokens.new }
{
    for _turn in 0..limits.turns {
        if !tokens.is(Sort::Dot) {
            return Ok(());
        }
        let _dot = tokens.take()?;
        let _name = tokens.expect(Sort::Name)?;
    }
    Err(Stop::Bad)
}

/// A name, and those that follow it after dots.
#[tactic(auto, unfolding(crate::specs::TypeRules::qualified))]
pub fn qualified<'a>(limits: Limits, tokens: &mut Tokens<'a>) -> Result<Names<'a>, Stop>
    ensures { Reads (spec.qualified limits.turns tokens.old) result tokens.new }
{
    let first = tokens.expect(Sort::Name)?;
    let after = tokens.rest();
    further_names(limits, tokens, first)?;
    let taken = after.len() - tokens.left();
    Ok(Names {
        first,
        rest: &after[..taken],
    })
}

impl<'a> Names<'a> {
    /// How many names there are: the height of the field that they are, and of the call of it
    /// without arguments.
    pub fn count(&self) -> usize
        ensures { result ≡ made.count_of self.now }
    {
        self.rest.len() / 2 + 1
    }

    /// Whether there is one name alone.
    pub fn is_one(&self) -> bool
        ensures { result ≡ made.is_one self.now }
    {
        self.rest.is_empty()
    }

    /// The first name.
    pub fn first(&self) -> &'a Token
        ensures { (seen result.now).text ≡ made.first_text self.now }
    {
        self.first
    }

    /// The names and dots as one text.
    #[tactic(auto, unfolding(crate::specs::Nodes::text_of))]
    pub fn joined(&self, limits: Limits) -> Result<Text, OutOfMemory>
        ensures { IfOk result (λ text. text ≡ made.text_of self.now) }
    {
        let mut text = String::from_str(limits.alloc, self.first.text.as_str())?;
        let mut after = self.rest;
        while let [token, rest @ ..] = after {
            text.push_str(token.text.as_str())?;
            after = rest;
        }
        Ok(Text::from_string(text))
    }

    /// The type of these names.
    pub fn named(&self, limits: Limits) -> Result<TypeName, OutOfMemory>
        ensures { IfOk result (λ to. to ≡ ty.Named (made.text_of self.now)) }
    {
        Ok(TypeName::Named(self.joined(limits)?))
    }

    /// The variable or field of these names.
    pub fn field(&self, limits: Limits) -> Result<Tall, OutOfMemory>
        ensures made { IfOk result (λ x. x ≡ made.named limits.builds self.now) }
        ensures height { IfOk result (λ x. x.height ≡ made.count_of self.now) }
    {
        tall::named(limits, self.first, self.rest)
    }

    /// A call of the method of these names.
    pub fn call(&self, limits: Limits, args: Listed) -> Result<Tall, OutOfMemory>
        requires { args.height < 2 ^ 63 }
        ensures made { IfOk result (λ x. x ≡ made.named_call limits.builds self.now args) }
        ensures height { IfOk result (λ x. x.height ≤ max (made.count_of self.now) (args.height + 1)) }
    {
        match self.rest {
            [before @ .., _, last] => {
                let on = tall::named(limits, self.first, before)?;
                tall::called_on(limits, on, last, args)
            }
            _ => tall::called(limits, self.first, args),
        }
    }
}

/// The primitive type of the next token.
#[tactic(auto, unfolding(crate::specs::TypeRules::primitive))]
pub fn primitive(limits: Limits, tokens: &mut Tokens<'_>) -> Result<TypeName, Stop>
    ensures { Reads (spec.primitive tokens.old) result tokens.new }
{
    let word = tokens.expect(Sort::Prim)?;
    Ok(TypeName::Prim(word.text.copy(limits.alloc)?))
}

/// A type without brackets.
#[tactic(auto, unfolding(crate::specs::TypeRules::base_type))]
pub fn base_type(limits: Limits, tokens: &mut Tokens<'_>) -> Result<TypeName, Stop>
    ensures { Reads (spec.base_type limits.turns tokens.old) result tokens.new }
{
    if tokens.is(Sort::Prim) {
        return primitive(limits, tokens);
    }
    let names = qualified(limits, tokens)?;
    Ok(names.named(limits)?)
}

/// The brackets that follow, after `before` pairs of them, and how many pairs there are then.
pub fn brackets(limits: Limits, tokens: &mut Tokens<'_>, before: usize) -> Result<usize, Stop>
    requires { before ≤ limits.most }
    ensures reads { Reads (spec.brackets (limits.most - before) before tokens.old) result tokens.new }
    ensures low { IfOk result (λ n. n ≤ limits.most) }
    ensures more { IfOk result (λ n. before ≤ n) }
{
    let mut count = before;
    for _turn in before..limits.most {
        if !tokens.is(Sort::Left) {
            return Ok(count);
        }
        tokens.take()?;
        tokens.expect(Sort::Right)?;
        count += 1;
    }
    Ok(count)
}

/// The array type with so many pairs of brackets; its base alone where none is built.
#[tactic(auto, unfolding(crate::specs::Nodes::array_type))]
pub fn array_of(limits: Limits, base: TypeName, pairs: usize) -> Result<TypeName, OutOfMemory>
    ensures { IfOk result (λ to. to ≡ made.array_type limits.builds pairs base) }
{
    let mut ty = base;
    if limits.builds {
        for _pair in 0..pairs {
            ty = TypeName::ArrayOf(Boxed::new(limits.alloc, ty)?);
        }
    }
    Ok(ty)
}

/// A type after its base and `before` pairs of brackets.
#[tactic(auto, unfolding(crate::specs::TypeRules::type_after))]
pub fn type_after(
    limits: Limits,
    tokens: &mut Tokens<'_>,
    base: TypeName,
    before: usize,
) -> Result<TypeName, Stop>
    requires { before ≤ limits.most }
    ensures { Reads (spec.type_after limits base before tokens.old) result tokens.new }
{
    let pairs = brackets(limits, tokens, before)?;
    Ok(array_of(limits, base, pairs)?)
}

/// A type.
#[tactic(auto, unfolding(crate::specs::TypeRules::whole_type))]
pub fn whole_type(limits: Limits, tokens: &mut Tokens<'_>) -> Result<TypeName, Stop>
    ensures { Reads (spec.whole_type limits tokens.old) result tokens.new }
{
    let base = base_type(limits, tokens)?;
    type_after(limits, tokens, base, 0)
}
