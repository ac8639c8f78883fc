//! What one token is, and the tokens of a source.
use crate::escapes::bytes_of;
use jav_lex::{Token, lex};
use mol_base::lexical::{before_unicode_escape, front_of};
use mol_base::{OutOfMemory, TokenKind, line_and_column, text_kind};
use std::alloc::Global;

/// The greatest source, in bytes: places in it are numbers of 32 bits.
const LONGEST: usize = 1 << 30;

/// The first letter of a kind's name, and `-` where a text is no token.
fn letter(kind: Option<TokenKind>) -> char {
    match kind {
        Some(TokenKind::Word) => 'W',
        Some(TokenKind::Keyword) => 'K',
        Some(TokenKind::Literal) => 'L',
        Some(TokenKind::Symbol) => 'S',
        Some(TokenKind::Comment) => 'C',
        None => '-',
    }
}

/// The line and the column of a place, which stands before the source.
pub fn place(alloc: Global, rest: &str) -> Result<String, OutOfMemory> {
    let (at, source) = rest.split_once(' ').unwrap_or((rest, ""));
    let source = bytes_of(alloc, source)?;
    let at = at.parse().unwrap_or(0);
    if LONGEST < source.len() || source.len() < at {
        return Ok(String::from_str(alloc, "no place")?);
    }
    let (line, column) = line_and_column(source.as_slice(), at);
    Ok(format!(in alloc; "{line}:{column}")?)
}

/// The letter of each of some texts.
pub fn kinds(alloc: Global, texts: &str) -> Result<String, OutOfMemory> {
    let mut shown = String::new(alloc);
    for text in texts.split(' ') {
        let bytes = bytes_of(alloc, text)?;
        shown.push(letter(text_kind(bytes.as_slice())))?;
    }
    Ok(shown)
}

/// What stands at the front of a text.
pub fn front(alloc: Global, text: &str) -> Result<String, OutOfMemory> {
    let bytes = bytes_of(alloc, text)?;
    let front = front_of(bytes.as_slice());
    Ok(format!(in alloc; "{front:?}")?)
}

/// How many bytes stand before the first Unicode escape of a text.
pub fn escape(alloc: Global, text: &str) -> Result<String, OutOfMemory> {
    let bytes = bytes_of(alloc, text)?;
    let before = before_unicode_escape(bytes.as_slice());
    Ok(format!(in alloc; "{before}")?)
}

/// The tokens of a source, or its fault.
pub fn lexed(alloc: Global, source: &str) -> Result<String, OutOfMemory> {
    let source = bytes_of(alloc, source)?;
    if LONGEST < source.len() {
        return Ok(String::from_str(alloc, "too long")?);
    }
    match lex(alloc, source.as_slice()) {
        Ok(tokens) => all_shown(alloc, tokens.items()),
        Err(fault) => Ok(format!(in alloc; "{fault:?}")?),
    }
}

/// A copy of each token: where it begins and ends, the letter of its kind, and its text.
fn all_shown(alloc: Global, tokens: &[Token]) -> Result<String, OutOfMemory> {
    let mut shown = String::new(alloc);
    for token in tokens {
        let token = token.copy(alloc)?;
        push_shown(alloc, &mut shown, &token)?;
    }
    Ok(shown)
}

fn push_shown(alloc: Global, shown: &mut String, token: &Token) -> Result<(), OutOfMemory> {
    let kind = letter(Some(token.kind));
    let text = token.text.as_str();
    let piece = format!(in alloc; "[{}-{} {kind} {text}]", token.start, token.end)?;
    shown.push_str(piece.as_str())?;
    Ok(())
}
