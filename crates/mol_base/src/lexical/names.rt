//! Identifiers, keywords, and the literals that are spelled as words (JLS 3.8, 3.9, 3.10.3, 3.10.7).
ghost use Rattle.std.specs.Prelude.{◌≡◌, ◌+◌, ◌<◌, ◌≤◌, length, IsTrue};
ghost use Rattle.std.specs.List.{list_any};
ghost use Rattle.std.specs.Str.{bytes_eq};
ghost use Rattle.mol_base.specs.Lexical.Characters.{width, first};
ghost use Rattle.mol_base.specs.Lexical.Names as spec;

use crate::lexical::bytes::{byte_at, first_char, width};
use crate::lexical::front::{Flaw, Front};
use crate::{MAX_NAME_BYTES, TokenKind};

/// The word at the front of bytes that begin with a character that may begin an identifier.
#[tactic(auto, unfolding(crate::specs::Lexical::Names::name))]
pub fn name(bytes: &[u8]) -> Front
    ensures { result ≡ spec.name bytes.now }
{
    let len = name_len(bytes);
    if MAX_NAME_BYTES < len {
        Front::Wrong(Flaw::NameTooLong, 0)
    } else if len == 1 && byte_at(bytes, 0) == b'_' {
        Front::Wrong(Flaw::BadChar, 0)
    } else {
        Front::Taken(word_kind(&bytes[..len]), len)
    }
}

/// Whether the bytes begin with a character that may begin an identifier.
#[tactic(auto, unfolding(crate::specs::Lexical::Names::starts_name))]
pub fn starts_name(bytes: &[u8]) -> bool
    ensures { result ≡ spec.starts_name bytes.now }
{
    match first_char(bytes) {
        Some(ch) => is_start(ch),
        None => false,
    }
}

/// Whether the bytes begin with a character that may stand inside an identifier.
#[tactic(auto, unfolding(crate::specs::Lexical::Names::goes_on))]
fn goes_on(bytes: &[u8]) -> bool
    ensures same { result ≡ spec.goes_on bytes.now }
    ensures whole { IsTrue result → width (first bytes.now) ≤ length bytes.now }
{
    match first_char(bytes) {
        Some(ch) => is_part(ch),
        None => false,
    }
}

#[tactic(auto, unfolding(crate::specs::Lexical::Names::is_start))]
fn is_start(ch: char) -> bool
    ensures { result ≡ spec.is_start ch }
{
    unicode_ident::is_xid_start(ch) || ch == '_' || ch == '$'
}

#[tactic(auto, unfolding(crate::specs::Lexical::Names::is_part))]
fn is_part(ch: char) -> bool
    ensures { result ≡ spec.is_part ch }
{
    is_start(ch) || unicode_ident::is_xid_continue(ch)
}

/// How many bytes the characters take that go on with an identifier.
fn name_len(bytes: &[u8]) -> usize
    ensures same { result ≡ spec.name_len 0 bytes.now }
    ensures within { result ≤ length bytes.now }
{
    let mut passed = 0;
    let mut rest = bytes;
    while goes_on(rest) {
        let step = width(byte_at(rest, 0));
        passed += step;
        rest = &rest[step..];
    }
    passed
}

/// What kind of token a word is.
#[tactic(auto, unfolding(crate::specs::Lexical::Names::word_kind))]
fn word_kind(name: &[u8]) -> TokenKind
    ensures { result ≡ spec.word_kind name.now }
{
    if is_keyword(name) {
        TokenKind::Keyword
    } else if is_word_literal(name) {
        TokenKind::Literal
    } else {
        TokenKind::Word
    }
}

/// The keywords, by the number of their bytes.
const KEYWORDS_2: [&[u8]; 2] = [b"do", b"if"];

const KEYWORDS_3: [&[u8]; 4] = [b"for", b"int", b"new", b"try"];

const KEYWORDS_4: [&[u8]; 9] = [
    b"byte", b"case", b"char", b"else", b"enum", b"goto", b"long", b"this", b"void",
];

const KEYWORDS_5: [&[u8]; 10] = [
    b"break", b"catch", b"class", b"const", b"final", b"float", b"short", b"super", b"throw",
    b"while",
];

const KEYWORDS_6: [&[u8]; 9] = [
    b"assert", b"double", b"import", b"native", b"public", b"return", b"static", b"switch",
    b"throws",
];

const KEYWORDS_7: [&[u8]; 6] = [
    b"boolean", b"default", b"extends", b"finally", b"package", b"private",
];

const KEYWORDS_8: [&[u8]; 4] = [b"abstract", b"continue", b"strictfp", b"volatile"];

const KEYWORDS_9: [&[u8]; 3] = [b"interface", b"protected", b"transient"];

const KEYWORDS_10: [&[u8]; 2] = [b"implements", b"instanceof"];

const KEYWORDS_12: [&[u8]; 1] = [b"synchronized"];

const WORD_LITERALS: [&[u8]; 3] = [b"true", b"false", b"null"];

/// Whether the bytes are a keyword: those of their length alone are compared.
pub fn is_keyword(name: &[u8]) -> bool
    ensures { result ≡ spec.is_keyword name.now }
{
    match name.len() {
        2 => is_one_of(name, &KEYWORDS_2),
        3 => is_one_of(name, &KEYWORDS_3),
        4 => is_one_of(name, &KEYWORDS_4),
        5 => is_one_of(name, &KEYWORDS_5),
        6 => is_one_of(name, &KEYWORDS_6),
        7 => is_one_of(name, &KEYWORDS_7),
        8 => is_one_of(name, &KEYWORDS_8),
        9 => is_one_of(name, &KEYWORDS_9),
        10 => is_one_of(name, &KEYWORDS_10),
        12 => is_one_of(name, &KEYWORDS_12),
        _ => false,
    }
}

#[tactic(auto, unfolding(crate::specs::Lexical::Names::is_word_literal, crate::specs::Lexical::Names::word_literals))]
pub fn is_word_literal(name: &[u8]) -> bool
    ensures { result ≡ spec.is_word_literal name.now }
{
    is_one_of(name, &WORD_LITERALS)
}

fn is_one_of(name: &[u8], words: &[&[u8]]) -> bool
    ensures { result ≡ list_any (λ word. bytes_eq word.now name.now) words.now }
{
    words.iter().any(|word| *word == name)
}
