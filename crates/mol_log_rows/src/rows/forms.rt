//! Which texts a row may have.
ghost use Rattle.std.specs.Prelude.{◌≡◌, ◌≢◌, ◌==◌, ◌&&◌, drop};
ghost use Rattle.mol_base.specs.Lexical.Characters.{first};
ghost use Rattle.mol_values_types.specs.TokenForms as spec;
ghost use Rattle.mol_values_types.specs.Words.{are_words as are_words_of};
ghost use Rattle.mol_log_rows.specs.rows.RowForms.{words_before};

use mol_base::{Modified, Text, are_in_order};
use mol_values_types::{is_comment, is_literal};

/// Whether the bytes are a literal, or `-` and a number.
pub fn is_filler(bytes: &[u8]) -> bool
    ensures { result ≡ spec.is_filler bytes.now }
{
    is_literal(bytes) || is_negative(bytes)
}

/// Whether the bytes are `-` and a number.
fn is_negative(bytes: &[u8]) -> bool
    ensures { result ≡ (first bytes.now == 45 && spec.is_number (drop 1 bytes.now)) }
{
    match bytes {
        [b'-', number @ ..] => is_number(number),
        _ => false,
    }
}

/// Whether the bytes are a literal that begins with a digit.
fn is_number(bytes: &[u8]) -> bool
    ensures { result ≡ spec.is_number bytes.now }
{
    match bytes {
        [b'0'..=b'9', ..] => is_literal(bytes),
        _ => false,
    }
}

/// Whether each text is a comment (JLS 3.7).
pub fn are_comments(texts: &[Text]) -> bool
    ensures { result ≡ spec.are_comments texts.now }
{
    texts.iter().all(|text| is_comment(text.bytes()))
}

/// Whether the texts are modifiers that may stand before this, in the order in which they are printed. A row has
/// no method that is marked as abstract: its body says so.
pub fn are_words(of: Modified, texts: &[Text]) -> bool
    requires { of ≢ Modified.AbstractMethod }
    ensures { result ≡ are_words_of (words_before of) texts.now }
{
    of.allows(texts) && are_in_order(texts)
}
