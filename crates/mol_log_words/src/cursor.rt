//! A cursor over words, which contracts see as the words that are left.
ghost use Rattle.std.specs.Prelude.{◌≡◌, ◌∷◌, [], length, drop, IfOk, IfErr};
ghost use Rattle.mol_base.specs.Spelled.{id_of};
ghost use Rattle.mol_log_words.specs.Words as spec;
ghost use Rattle.mol_log_words.specs.TypeHeads.{type_head_of};
ghost use Rattle.mol_log_words.specs.Reader as reader;
ghost use Rattle.mol_log_words.specs.Reads.{Reads, ReadsCut};
ghost use Rattle.mol_log_words.specs.declared.fault.Fault.TheVariants.{Bad};

use crate::bounds::Bounds;
use crate::count;
use crate::fault::Fault;
use crate::text_form::{TextForm, has_form};
use crate::type_head::{self, TypeHead};
use crate::type_role::TypeRole;
use mol_base::{Id, OutOfMemory, Text};
use std::alloc::Global;
use std::marker::Model;

/// The words that are left. A call that answers `Fault::Bad` leaves the bad word as the next one.
#[derive(Drop)]
pub struct Cursor<'a> {
    rest: &'a [Text],
}

impl<'a> Model for Cursor<'a> {
    ghost use Rattle.std.specs.Prelude.{List, ℕ};

    ghost Value = { List (List ℕ) };

    ghost view = { λ cursor. cursor.rest.now };
}

impl<'a> Cursor<'a> {
    /// A cursor before the first of these words.
    pub fn new(rest: &'a [Text]) -> Cursor<'a>
        ensures { result ≡ rest.now }
    {
        Cursor { rest }
    }

    /// How many words are left.
    pub fn left(&self) -> usize
        ensures { result ≡ length self.now }
    {
        self.rest.len()
    }

    /// The next word. `Fault::Bad` where none is left.
    pub fn next_word(&self) -> Result<&'a Text, Fault>
        ensures next { IfOk result (λ word. self.now ≡ word.now ∷ drop 1 self.now) }
        ensures none { IfErr result (λ fault. (fault ≡ Bad) × (self.now ≡ [])) }
    {
        match self.rest {
            [] => Err(Fault::Bad),
            [word, ..] => Ok(word),
        }
    }

    /// Takes the next word, in which this was found. `Fault::Bad` where nothing was, and where no word is left.
    #[tactic(auto, unfolding(crate::specs::Reader::take))]
    pub fn accept<T: Drop>(&mut self, found: Option<T>) -> Result<T, Fault>
        ensures { Reads (reader.take (λ _. found) self.old) result self.new }
    {
        match self.rest {
            [] => Err(Fault::Bad),
            [_, rest @ ..] => match found {
                Some(found) => {
                    self.rest = rest;
                    Ok(found)
                }
                None => Err(Fault::Bad),
            },
        }
    }

    /// Takes the word with which a type of this role begins, an array only where `deeper` holds.
    pub fn type_head(&mut self, role: TypeRole, deeper: bool) -> Result<TypeHead, Fault>
        ensures { Reads (reader.take (type_head_of role deeper) self.old) result self.new }
    {
        let found = type_head::type_head_of(role, deeper, self.next_word()?.bytes());
        self.accept(found)
    }

    /// Takes an identity.
    pub fn id(&mut self) -> Result<Id, Fault>
        ensures { Reads (reader.take id_of self.old) result self.new }
    {
        let found = count::id_of_word(self.next_word()?.bytes());
        self.accept(found)
    }

    /// Takes a count within the bounds, more than 0 only where `deeper` holds. The greatest `u64` stands for
    /// all that is greater.
    pub fn count(&mut self, bounds: Bounds, deeper: bool) -> Result<u64, Fault>
        ensures { ReadsCut (reader.take (spec.count_of bounds deeper) self.old) result self.new }
    {
        let found = count::count_of(bounds, deeper, self.next_word()?.bytes());
        self.accept(found)
    }

    /// Takes a count of arguments, more than 0 only where `deeper` holds.
    pub fn few(&mut self, deeper: bool) -> Result<u32, Fault>
        ensures { Reads (reader.take (spec.count_of Bounds.Few deeper) self.old) result self.new }
    {
        let found = count::few_of(deeper, self.next_word()?.bytes());
        self.accept(found)
    }

    /// Takes the number of pairs of empty brackets after `sizes` sizes, no more than 255 dimensions together.
    pub fn pairs(&mut self, sizes: usize) -> Result<u32, Fault>
        ensures { Reads (reader.take (spec.pairs_of sizes) self.old) result self.new }
    {
        let found = count::pairs_of(sizes, self.next_word()?.bytes());
        self.accept(found)
    }

    /// Takes a word of this form.
    pub fn text(&mut self, alloc: Global, form: TextForm) -> Result<Text, Fault>
        ensures { Reads (reader.take (reader.passing (spec.has_form form)) self.old) result self.new }
    {
        let word = self.next_word()?;
        let found = formed(alloc, form, word)?;
        self.accept(found)
    }
}

/// The word, if it is of this form.
fn formed(alloc: Global, form: TextForm, word: &Text) -> Result<Option<Text>, OutOfMemory>
    ensures { IfOk result (λ found. found ≡ reader.passing (spec.has_form form) word.now) }
{
    if has_form(form, word.bytes()) {
        Ok(Some(word.copy(alloc)?))
    } else {
        Ok(None)
    }
}
