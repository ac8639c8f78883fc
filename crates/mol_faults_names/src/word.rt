//! What the last of several names is the name of.
ghost use Rattle.std.specs.Prelude.{◌≡◌, Some};
ghost use Rattle.mol_scope.specs.asked.Answers.{answer_of};
ghost use Rattle.mol_faults_names.specs.Kept.{word_of};

use mol_base::Id;
use mol_scope::{Answer, DottedText};

/// What the name of a value is the name of.
#[derive(Clone, Copy)]
pub(crate) enum Word<'b> {
    /// A local, by its number, from 0.
    Local(usize),
    Param(Id),
    Field(Id),
    /// Something outside, by its text.
    Outside(&'b str),
}

impl<'b> Word<'b> {
    /// This as an answer. It takes no memory.
    pub(crate) fn answer(&self) -> Answer<'b>
        ensures { answer_of result ≡ Some (word_of self.now) }
    {
        match self {
            Word::Local(number) => Answer::Local(*number),
            Word::Param(id) => Answer::Param(*id),
            Word::Field(id) => Answer::Field(*id),
            Word::Outside(text) => Answer::Outside(DottedText {
                front: *text,
                rest: None,
            }),
        }
    }
}
