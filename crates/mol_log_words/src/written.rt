//! Words that grow at their end.
ghost use Rattle.std.specs.Prelude.{◌≡◌, ◌++◌, ◌∷◌, [], OnOk};
ghost use Rattle.mol_base.specs.Identity.{spelled_id};
ghost use Rattle.mol_log_words.specs.Words as spec;

use mol_base::{Id, List, OutOfMemory, Text};
use std::alloc::Global;
use std::marker::Model;

/// The words that are written so far. Where memory runs out they are of no more use.
#[derive(Drop)]
pub struct Written {
    alloc: Global,
    words: List<Text>,
}

impl Model for Written {
    ghost use Rattle.std.specs.Prelude.{List as Items, ℕ};

    ghost Value = { Items (Items ℕ) };

    ghost view = { λ written. written.words };
}

impl Written {
    /// No words. It takes no memory.
    pub fn new(alloc: Global) -> Written
        ensures { result ≡ [] }
    {
        Written {
            alloc,
            words: List::new(alloc),
        }
    }

    /// Adds a word.
    pub fn word(&mut self, word: &str) -> Result<(), OutOfMemory>
        ensures { OnOk result (self.new ≡ self.old ++ word.now ∷ []) }
    {
        self.words.add(Text::from_str(self.alloc, word)?)
    }

    /// Adds a text as a word.
    pub fn text(&mut self, text: &Text) -> Result<(), OutOfMemory>
        ensures { OnOk result (self.new ≡ self.old ++ text.now ∷ []) }
    {
        self.words.add(text.copy(self.alloc)?)
    }

    /// Adds the word of an identity.
    pub fn id(&mut self, id: &Id) -> Result<(), OutOfMemory>
        ensures { OnOk result (self.new ≡ self.old ++ spelled_id id.now ∷ []) }
    {
        self.words.add(id.write(self.alloc)?)
    }

    /// Adds a word and then a text.
    pub fn text_after(&mut self, word: &str, text: &Text) -> Result<(), OutOfMemory>
        ensures { OnOk result (self.new ≡ self.old ++ (word.now ∷ text.now ∷ [])) }
    {
        self.word(word)?;
        self.text(text)
    }

    /// Adds a word and then that of an identity.
    pub fn id_after(&mut self, word: &str, id: &Id) -> Result<(), OutOfMemory>
        ensures { OnOk result (self.new ≡ self.old ++ (word.now ∷ spelled_id id.now ∷ [])) }
    {
        self.word(word)?;
        self.id(id)
    }

    /// Adds the word of a number.
    #[tactic(auto, using(crate::proofs::Numerals::decimal_numeral))]
    pub fn number(&mut self, number: u64) -> Result<(), OutOfMemory>
        ensures { OnOk result (self.new ≡ self.old ++ spec.numeral number ∷ []) }
    {
        let digits = format!(in self.alloc; "{number}")?;
        self.words.add(Text::from_string(digits))
    }

    /// The words. It takes no memory.
    pub fn into_list(self) -> List<Text>
        ensures { result ≡ self }
    {
        let Written { alloc: _, words } = self;
        words
    }
}
