//! String and character literals (JLS 3.10.4 to 3.10.6).
ghost use Rattle.std.specs.Prelude.{◌≡◌, ◌+◌, ◌<◌, ◌≤◌, length, false};
ghost use Rattle.mol_base.specs.Lexical.Quoted as spec;

use crate::TokenKind;
use crate::lexical::bytes::{byte_at, first_char, is_line_end, width};
use crate::lexical::front::{Flaw, Front};

/// The literal at the front of bytes that begin with this quote.
#[tactic(auto, unfolding(crate::specs::Lexical::Quoted::quoted))]
pub fn quoted(quote: u8, bytes: &[u8]) -> Front
    requires quote { 0 < quote }
    requires some { 0 < length bytes.now }
    ensures { result ≡ spec.quoted quote bytes.now }
{
    let rest = &bytes[1..];
    let len = before_quote(quote, rest);
    let body = &rest[..len];
    if byte_at(rest, len) != quote {
        return Front::Wrong(Flaw::OpenString, 0);
    }
    let good = before_bad_escape(body);
    if good < len {
        Front::Wrong(Flaw::BadEscape, 1 + good)
    } else if fits_between(quote, body) {
        Front::Taken(TokenKind::Literal, len + 2)
    } else {
        Front::Wrong(Flaw::OpenString, 0)
    }
}

/// How many bytes stand before the closing quote, or before the end of the line where none closes.
fn before_quote(quote: u8, bytes: &[u8]) -> usize
    ensures same { result ≡ spec.before_quote quote false bytes.now }
    ensures within { result ≤ length bytes.now }
{
    let mut passed = 0;
    let mut escaped = false;
    let mut rest = bytes;
    while let [first, after @ ..] = rest {
        if is_line_end(*first) || (!escaped && *first == quote) {
            return passed;
        }
        escaped = !escaped && *first == b'\\';
        passed += 1;
        rest = after;
    }
    passed
}

/// How many bytes stand before the first backslash that begins no escape: all where there is none.
fn before_bad_escape(bytes: &[u8]) -> usize
    ensures same { result ≡ spec.before_bad_escape false bytes.now }
    ensures within { result ≤ length bytes.now }
{
    let mut passed = 0;
    let mut escaped = false;
    let mut rest = bytes;
    while let [first, after @ ..] = rest {
        let begins = !escaped && *first == b'\\';
        if begins && !is_escape(byte_at(after, 0)) {
            return passed;
        }
        escaped = begins;
        passed += 1;
        rest = after;
    }
    passed
}

/// Whether the byte may follow a backslash.
fn is_escape(byte: u8) -> bool
    ensures { result ≡ spec.is_escape byte }
{
    b"btnfr\"'\\01234567".contains(&byte)
}

fn is_octal(byte: u8) -> bool
    ensures { result ≡ spec.is_octal byte }
{
    (b'0'..=b'7').contains(&byte)
}

/// Whether the bytes are one character up to U+FFFF.
#[tactic(auto, unfolding(crate::specs::Lexical::Quoted::is_one_char))]
fn is_one_char(body: &[u8]) -> bool
    ensures { result ≡ spec.is_one_char body.now }
{
    body.len() == 1
        || (body.len() <= 3 && body.len() == width(byte_at(body, 0)) && first_char(body).is_some())
}

/// Whether the bytes are one escape.
#[tactic(auto, unfolding(crate::specs::Lexical::Quoted::is_one_escape))]
fn is_one_escape(body: &[u8]) -> bool
    ensures { result ≡ spec.is_one_escape body.now }
{
    byte_at(body, 0) == b'\\'
        && (body.len() == 2
            || (body.len() == 3 && is_octal(byte_at(body, 1)) && is_octal(byte_at(body, 2)))
            || (body.len() == 4
                && (b'0'..=b'3').contains(&byte_at(body, 1))
                && is_octal(byte_at(body, 2))
                && is_octal(byte_at(body, 3))))
}

/// Whether the bytes, whose escapes are good, may stand between two such quotes.
#[tactic(auto, unfolding(crate::specs::Lexical::Quoted::fits_between))]
fn fits_between(quote: u8, body: &[u8]) -> bool
    ensures { result ≡ spec.fits_between quote body.now }
{
    quote == b'"' || is_one_char(body) || is_one_escape(body)
}
