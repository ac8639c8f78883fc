//! Texts with dots in them.
ghost use Rattle.std.specs.Prelude.{◌≡◌};
ghost use Rattle.std.specs.Str.{bytes_eq};
ghost use Rattle.mol_scope.specs.asked.Answers.{text_of};

use jav_names::Spelling;

/// A text in two pieces: what stands in front of a dot and what follows it, or all of it without a dot in between.
#[derive(Clone, Copy)]
pub struct DottedText<'a> {
    pub front: &'a str,
    pub rest: Option<&'a str>,
}

impl DottedText<'_> {
    /// Whether this is the text.
    pub(crate) fn is(&self, text: &str) -> bool
        ensures { result ≡ bytes_eq text.now (text_of self.now) }
    {
        match self.rest {
            Some(rest) => Spelling::Pair(self.front.as_bytes(), rest.as_bytes())
                .compare(text.as_bytes())
                .is_eq(),
            None => text == self.front,
        }
    }
}
