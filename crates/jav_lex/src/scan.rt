//! The tokens of a source.
ghost use Rattle.std.specs.Prelude.{List as Items, ◌≡◌, ◌≢◌, ◌+◌, ◌-◌, ◌<◌, ◌≤◌, ◌^◌, length, take, drop, IfOk, IfErr, nat_lt};
ghost use Rattle.std.specs.Str.{IsUtf8};
ghost use Rattle.std.specs.Str.Lossy.{utf8_valid_len};
ghost use Rattle.mol_base.specs.Source.{IsSource};
ghost use Rattle.mol_base.specs.Token as token;
ghost use Rattle.mol_base.specs.Lexical.Front.{front, IsWithin};
ghost use Rattle.mol_base.specs.Lexical.Tokens.{AreTokens};
ghost use Rattle.jav_lex.specs.Token.{seen, all_seen};
ghost use Rattle.jav_lex.specs.Fault.{IsFirstFault, of_characters as fault_of_characters};

use crate::{LexFault, Token};
use mol_base::lexical::{Front, before_unicode_escape, front_of};
use mol_base::{List, OutOfMemory, Text, TokenKind};
use std::alloc::Global;

/// How many bytes of a source stand before its first ill-formed sequence: all where there is none.
fn text_len(bytes: &[u8]) -> usize
    ensures len { result ≡ utf8_valid_len bytes.now }
    ensures front { IsUtf8 (take result bytes.now) }
    ensures within { result ≤ length bytes.now }
{
    match std::str::from_utf8(bytes) {
        Ok(_) => bytes.len(),
        Err(fault) => fault.valid_up_to(),
    }
}

/// The token of a part of a source.
fn token_at(
    alloc: Global,
    bytes: &[u8],
    kind: TokenKind,
    start: usize,
    end: usize,
) -> Result<Token, OutOfMemory>
    requires ordered { start ≤ end }
    requires inside { end ≤ length bytes.now }
    requires small { length bytes.now < 2 ^ 32 }
    requires text { IsUtf8 (take (end - start) (drop start bytes.now)) }
    ensures { IfOk result (λ t. seen t ≡ record { kind = kind; text = take (end - start) (drop start bytes.now); start = start; end = end }) }
{
    let text = unsafe { std::str::from_utf8_unchecked(&bytes[start..end]) };
    Ok(Token {
        kind,
        text: Text::from_str(alloc, text)?,
        start: start as u32,
        end: end as u32,
    })
}

/// What stands at the front of a source from a byte on.
fn front_at(bytes: &[u8], at: usize) -> Front
    requires { at < length bytes.now }
    ensures same { result ≡ front (drop at bytes.now) }
    ensures within { IsWithin (drop at bytes.now) result }
{
    front_of(&bytes[at..])
}

/// The fault of a character, by how many bytes stand before the first Unicode escape and before the
/// first ill-formed sequence.
fn of_characters(escape: usize, text: usize) -> LexFault
    requires escape_small { escape < 2 ^ 32 }
    requires text_small { text < 2 ^ 32 }
    ensures { result ≡ fault_of_characters escape text }
{
    if escape < text {
        LexFault::UnicodeEscape(escape as u32)
    } else {
        LexFault::NotUtf8(text as u32)
    }
}

/// The tokens of a source: at each place the longest token is taken (JLS 3.2).
///
/// `bytes` are the source. Answers the tokens in order, comments among them, each with its text and its
/// bytes; or the fault of least place, where one of a character (`NotUtf8`, `UnicodeEscape`) goes before
/// another at the same place.
pub fn lex(alloc: Global, bytes: &[u8]) -> Result<List<Token>, LexFault>
    requires { length bytes.now < 2 ^ 32 }
    // the tokens are those of the source, each is one by its form, and no others are
    ensures ok { IfOk result (λ tokens. IsSource bytes.now (all_seen tokens)) }
    ensures tokens { IfOk result (λ tokens. AreTokens (all_seen tokens)) }
    ensures only { IfOk result (λ tokens. (others : Items token.Token) → IsSource bytes.now others → others ≡ all_seen tokens) }
    // the fault is the first, no other is, and no tokens are those of the source
    ensures err { IfErr result (λ fault. fault ≢ LexFault.OutOfMemory → IsFirstFault bytes.now fault) }
    ensures one { IfErr result (λ fault. fault ≢ LexFault.OutOfMemory → (other : LexFault) → IsFirstFault bytes.now other → other ≡ fault) }
    ensures none { IfErr result (λ fault. fault ≢ LexFault.OutOfMemory → (others : Items token.Token) → IsSource bytes.now others → ⊥) }
{
    let escape = before_unicode_escape(bytes);
    let text = text_len(bytes);
    let clean = escape.min(text);
    let mut tokens = List::new(alloc);
    let mut at = 0;
    while at < clean {
        match front_at(bytes, at) {
            Front::Space => at += 1,
            Front::Taken(kind, len) => {
                if clean - at < len {
                    return Err(of_characters(escape, text));
                }
                let token = token_at(alloc, bytes, kind, at, at + len)?;
                tokens.add(token)?;
                at += len;
            }
            Front::Wrong(flaw, offset) => {
                if clean - at <= offset {
                    return Err(of_characters(escape, text));
                }
                return Err(LexFault::of_flaw(flaw, (at + offset) as u32));
            }
        }
    }
    if clean == bytes.len() {
        Ok(tokens)
    } else {
        Err(of_characters(escape, text))
    }
}
