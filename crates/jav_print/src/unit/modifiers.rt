ghost use Rattle.std.specs.Prelude.{◌≡◌, ◌++◌, ◌||◌, OnOk};
ghost use Rattle.std.specs.List.{list_any};
ghost use Rattle.std.specs.Str.{bytes_eq};
ghost use Rattle.jav_tree.specs.Layout.{words_text};
ghost use Rattle.jav_print.specs.Modifiers.{modifier_text, with_kept};

use crate::page::Page;
use mol_base::{OutOfMemory, Text};

impl Page {
    /// Appends modifiers but `@Override` in their order, with `static` and `abstract` where these are kept
    /// apart from the others.
    pub fn modifiers(
        &mut self,
        words: &[Text],
        is_static: bool,
        is_abstract: bool,
    ) -> Result<(), OutOfMemory>
        ensures { OnOk result (self.new ≡ self.old ++ words_text (with_kept is_static is_abstract words.now)) }
    {
        self.modifier(has(words, "public"), "public ")?;
        self.modifier(has(words, "protected"), "protected ")?;
        self.modifier(has(words, "private"), "private ")?;
        self.modifier(stands(is_abstract, words, "abstract"), "abstract ")?;
        self.modifier(stands(is_static, words, "static"), "static ")?;
        self.modifier(has(words, "final"), "final ")?;
        self.modifier(has(words, "transient"), "transient ")?;
        self.modifier(has(words, "volatile"), "volatile ")
    }

    /// Appends a modifier where it stands.
    fn modifier(&mut self, stands: bool, word: &str) -> Result<(), OutOfMemory>
        ensures { OnOk result (self.new ≡ self.old ++ modifier_text stands word.now) }
    {
        self.put(if stands { word } else { "" })
    }
}

/// Whether a word stands among the words.
pub fn has(words: &[Text], word: &str) -> bool
    ensures { result ≡ list_any (bytes_eq word.now) words.now }
{
    words.iter().any(|each| word == each.as_str())
}

/// Whether a word is kept apart, or stands among the words.
fn stands(is_kept: bool, words: &[Text], word: &str) -> bool
    ensures { result ≡ (is_kept || list_any (bytes_eq word.now) words.now) }
{
    is_kept || has(words, word)
}
