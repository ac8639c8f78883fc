//! A cursor over tokens, which contracts see as the tokens that are left.
ghost use Rattle.std.specs.Prelude.{◌≡◌, length, ℕ};
ghost use Rattle.jav_lex.specs.Token.{seen, all_seen};
ghost use Rattle.jav_tree.specs.Tokens.{start_of};
ghost use Rattle.jav_parse_cursor.specs.Reading as spec;
ghost use Rattle.jav_parse_cursor.specs.Reads.{Reads, ReadsToken};
ghost use Rattle.jav_parse_cursor.specs.Sorts.{same_sort};

use crate::limits::Limits;
use crate::sort::{Sort, same_sort, sort_of};
use crate::stop::Stop;
use jav_lex::Token;
use mol_base::{List, Text};
use std::marker::Model;

/// The tokens that are left, and the sort of the next one.
#[derive(Drop)]
pub struct Tokens<'a> {
    rest: &'a [Token],
    next: Sort,
}

impl<'a> Model for Tokens<'a> {
    ghost use Rattle.std.specs.Prelude.{List as Items, ◌≡◌};
    ghost use Rattle.mol_base.specs.Token as token;
    ghost use Rattle.jav_lex.specs.Token.{all_seen};
    ghost use Rattle.jav_parse_cursor.specs.Reading.{sort};

    ghost Value = { Items token.Token };

    ghost view = { λ t. all_seen t.rest.now };

    ghost invariant = { λ t. t.next ≡ sort (all_seen t.rest.now) };
}

#[tactic(auto, unfolding(crate::specs::Reading::sort))]
fn next_sort(tokens: &[Token]) -> Sort
    ensures { result ≡ spec.sort (all_seen tokens.now) }
{
    match tokens {
        [] => Sort::End,
        [token, ..] => sort_of(token),
    }
}

fn is_override(token: &Token) -> bool
    ensures { result ≡ spec.is_override (seen token.now) }
{
    same_sort(sort_of(token), Sort::Name) && token.text.as_str() == "Override"
}

impl<'a> Tokens<'a> {
    pub fn new(rest: &'a [Token]) -> Tokens<'a>
        ensures { result ≡ all_seen rest.now }
    {
        Tokens {
            rest,
            next: next_sort(rest),
        }
    }

    /// How many tokens are left.
    pub fn left(&self) -> usize
        ensures { result ≡ length self.now }
    {
        self.rest.len()
    }

    /// The tokens that are left.
    pub fn rest(&self) -> &'a [Token]
        ensures { all_seen result.now ≡ self.now }
    {
        self.rest
    }

    /// The sort of the next token.
    pub fn peek(&self) -> Sort
        ensures { result ≡ spec.sort self.now }
    {
        self.next
    }

    /// Whether the next token is of this sort.
    pub fn is(&self, sort: Sort) -> bool
        ensures { result ≡ same_sort (spec.sort self.now) sort }
    {
        same_sort(self.next, sort)
    }

    /// Where the next token starts; 0 where there is none.
    pub fn start(&self) -> u32
        ensures { result ≡ start_of self.now }
    {
        match self.rest {
            [] => 0,
            [token, ..] => token.start,
        }
    }

    #[tactic(auto, unfolding(crate::specs::Reading::take_token))]
    pub fn take(&mut self) -> Result<&'a Token, Stop>
        ensures { ReadsToken (spec.take_token self.old) result self.new }
    {
        match self.rest {
            [] => Err(Stop::Bad),
            [token, rest @ ..] => {
                self.rest = rest;
                self.next = next_sort(rest);
                Ok(token)
            }
        }
    }

    /// Takes the next token, which must be of this sort.
    #[tactic(auto, unfolding(crate::specs::Reading::expect))]
    pub fn expect(&mut self, sort: Sort) -> Result<&'a Token, Stop>
        ensures { ReadsToken (spec.expect sort self.old) result self.new }
    {
        if self.is(sort) {
            self.take()
        } else {
            Err(Stop::Bad)
        }
    }

    /// Whether the next token is the name `Override`.
    fn begins_override(&self) -> bool
        ensures { result ≡ spec.begins_override self.now }
    {
        match self.rest {
            [] => false,
            [token, ..] => is_override(token),
        }
    }

    /// Takes the name `Override`.
    #[tactic(auto, using(crate::proofs::Override::override_is))]
    pub fn expect_override(&mut self) -> Result<&'a Token, Stop>
        ensures { ReadsToken (spec.expect_override self.old) result self.new }
    {
        if self.begins_override() {
            self.take()
        } else {
            Err(Stop::Bad)
        }
    }

    /// Takes the comments that stand here, and adds them to `notes`.
    pub fn comments(&mut self, limits: Limits, notes: List<Text>) -> Result<List<Text>, Stop>
        ensures { Reads (spec.comments limits.turns notes self.old) result self.new }
    {
        let mut all = notes;
        for _turn in 0..limits.turns {
            if !self.is(Sort::Comment) {
                return Ok(all);
            }
            let token = self.take()?;
            all.add(token.text.copy(limits.alloc)?)?;
        }
        Err(Stop::Bad)
    }
}
