//! Words that a tree keeps as they are.
ghost use Rattle.std.specs.Prelude.{◌≡◌};
ghost use Rattle.mol_log_words.specs.Words as spec;

use mol_base::{binary_level, is_assignment, is_prefix, is_step};
use mol_values_types::{is_comment, is_dotted, is_literal, is_name};

/// What a word may be that a tree keeps as it is.
#[derive(Clone, Copy, Debug, PartialEq, Eq)]
pub enum TextForm {
    Literal,
    Comment,
    Name,
    /// Names joined by dots.
    Dotted,
    /// Nothing, or names joined by dots.
    Rest,
    /// An operator before its operand.
    Unary,
    /// `++` or `--`.
    Step,
    /// An operator between two operands.
    Binary,
    Assignment,
}

fn is_binary(word: &[u8]) -> bool
    ensures { result ≡ spec.is_binary word.now }
{
    binary_level(word).is_some()
}

/// Whether the word is of this form.
pub fn has_form(form: TextForm, word: &[u8]) -> bool
    ensures { result ≡ spec.has_form form word.now }
{
    match form {
        TextForm::Literal => is_literal(word),
        TextForm::Comment => is_comment(word),
        TextForm::Name => is_name(word),
        TextForm::Dotted => is_dotted(word),
        TextForm::Rest => word.is_empty() || is_dotted(word),
        TextForm::Unary => is_prefix(word) || is_step(word),
        TextForm::Step => is_step(word),
        TextForm::Binary => is_binary(word),
        TextForm::Assignment => is_assignment(word),
    }
}
