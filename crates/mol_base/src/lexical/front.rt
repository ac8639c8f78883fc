//! What stands at the front of the rest of a source: white space, a token, or a flaw.
ghost use Rattle.std.specs.Prelude.{◌≡◌, ◌<◌, ◌≤◌, length, IfSome};
ghost use Rattle.mol_base.specs.Lexical.Flaws.{TakesSound, FindsFlaws};
ghost use Rattle.mol_base.specs.Lexical.Front as spec;
ghost use Rattle.mol_base.specs.Lexical.Tokens.{IsOneToken};

use crate::TokenKind;
use crate::lexical::bytes::{before_unicode_escape, byte_at, is_digit, is_space};
use crate::lexical::comments::{block_comment, line_comment};
use crate::lexical::names::{name, starts_name};
use crate::lexical::numbers::number;
use crate::lexical::quoted::quoted;
use crate::lexical::symbols::symbol;

/// Why no token begins at a place, or why the one that begins there is not well formed.
#[derive(Clone, Copy, Debug, PartialEq, Eq)]
pub enum Flaw {
    BadChar,
    OpenString,
    OpenComment,
    BadEscape,
    FloatLiteral,
    BadNumber,
    TextBlock,
    NameTooLong,
}

/// What the rest of a source begins with.
#[derive(Clone, Copy, Debug, PartialEq, Eq)]
pub enum Front {
    /// One byte of white space.
    Space,
    /// A token of this kind and of so many bytes.
    Taken(TokenKind, usize),
    /// A flaw, so many bytes after the front.
    Wrong(Flaw, usize),
}

/// What stands at the front of some bytes. It takes no memory.
///
/// Where there are bytes, a token is within them and ends where a character does, it is the longest front
/// of them that is a token, and a flaw stands at one of them. All of the bytes are taken as a token of a
/// kind exactly where they are one. A token is taken exactly where it is the longest one and no flaw begins
/// the bytes, and a flaw is found exactly where it begins them.
pub fn front_of(bytes: &[u8]) -> Front
    ensures same { result ≡ spec.front bytes.now }
    ensures within { 0 < length bytes.now → spec.IsWithin bytes.now result }
    ensures longest { 0 < length bytes.now → spec.TakesLongest bytes.now result }
    ensures whole { spec.TakesTokens bytes.now result }
    ensures sound { 0 < length bytes.now → TakesSound bytes.now result }
    ensures flaws { 0 < length bytes.now → FindsFlaws bytes.now result }
{
    by_first_bytes(bytes)
}

/// What stands at the front, by the first three bytes.
#[tactic(auto, unfolding(crate::specs::Lexical::Front::front))]
fn by_first_bytes(bytes: &[u8]) -> Front
    ensures { result ≡ spec.front bytes.now }
{
    let first = byte_at(bytes, 0);
    let second = byte_at(bytes, 1);
    if is_space(first) {
        Front::Space
    } else if first == b'/' && second == b'/' {
        line_comment(bytes)
    } else if first == b'/' && second == b'*' {
        block_comment(bytes)
    } else if first == b'"' && second == b'"' && byte_at(bytes, 2) == b'"' {
        Front::Wrong(Flaw::TextBlock, 0)
    } else if first == b'"' || first == b'\'' {
        quoted(first, bytes)
    } else if is_digit(first) {
        number(bytes)
    } else if first == b'.' && is_digit(second) {
        Front::Wrong(Flaw::FloatLiteral, 0)
    } else if starts_name(bytes) {
        name(bytes)
    } else {
        symbol(bytes)
    }
}

/// Whether the bytes are UTF-8 and without a Unicode escape.
#[tactic(auto, unfolding(crate::specs::Lexical::Front::is_clean))]
fn is_clean(bytes: &[u8]) -> bool
    ensures { result ≡ spec.is_clean bytes.now }
{
    match std::str::from_utf8(bytes) {
        Ok(_) => before_unicode_escape(bytes) == bytes.len(),
        Err(_) => false,
    }
}

/// What kind of token the bytes are, where they are one whole token.
///
/// `None` where they are anything else: nothing, white space, several tokens, a name of more than 255
/// bytes, or bytes that no source may have, as a comment with a Unicode escape in it.
pub fn text_kind(bytes: &[u8]) -> Option<TokenKind>
    ensures same { result ≡ spec.token_kind bytes.now }
    ensures some { IfSome result (λ kind. IsOneToken kind bytes.now) }
    ensures only { (kind : TokenKind) → IsOneToken kind bytes.now → result ≡ Some kind }
{
    kind_of_whole(bytes)
}

/// The kind of what stands at the front, where nothing stands after it.
#[tactic(auto, unfolding(crate::specs::Lexical::Front::token_kind))]
fn kind_of_whole(bytes: &[u8]) -> Option<TokenKind>
    ensures { result ≡ spec.token_kind bytes.now }
{
    if !is_clean(bytes) {
        return None;
    }
    match front_of(bytes) {
        Front::Space => None,
        Front::Taken(kind, len) => { if len == bytes.len() { Some(kind) } else { None } }
        Front::Wrong(_, _) => None,
    }
}
