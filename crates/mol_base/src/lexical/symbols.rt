//! Separators and operators (JLS 3.11, 3.12).
ghost use Rattle.std.specs.Prelude.{◌≡◌, ◌+◌, ◌<◌, ◌≤◌, length};
ghost use Rattle.mol_base.specs.Lexical.Symbols as spec;

use crate::TokenKind;
use crate::lexical::bytes::byte_at;
use crate::lexical::front::{Flaw, Front};

/// The longest symbol at the front.
#[tactic(auto, unfolding(crate::specs::Lexical::Symbols::symbol))]
pub fn symbol(bytes: &[u8]) -> Front
    ensures { result ≡ spec.symbol bytes.now }
{
    let (a, b, c, d) = (
        byte_at(bytes, 0),
        byte_at(bytes, 1),
        byte_at(bytes, 2),
        byte_at(bytes, 3),
    );
    if is_symbol_4(a, b, c, d) {
        Front::Taken(TokenKind::Symbol, 4)
    } else if is_symbol_3(a, b, c) {
        Front::Taken(TokenKind::Symbol, 3)
    } else if is_symbol_2(a, b) {
        Front::Taken(TokenKind::Symbol, 2)
    } else if is_symbol_1(a) {
        Front::Taken(TokenKind::Symbol, 1)
    } else {
        Front::Wrong(Flaw::BadChar, 0)
    }
}

fn is_symbol_1(a: u8) -> bool
    ensures { result ≡ spec.is_symbol_1 a }
{
    b"(){}[];,.@=><!~?:+-*/&|^%".contains(&a)
}

/// `=` after an operator, a sign twice, or `->`.
fn is_symbol_2(a: u8, b: u8) -> bool
    ensures { result ≡ spec.is_symbol_2 a b }
{
    (b == b'=' && takes_equals(a)) || (a == b && comes_twice(a)) || (a == b'-' && b == b'>')
}

fn takes_equals(a: u8) -> bool
    ensures { result ≡ spec.takes_equals a }
{
    b"=><!+-*/&|^%".contains(&a)
}

fn comes_twice(a: u8) -> bool
    ensures { result ≡ spec.comes_twice a }
{
    b":&|+-<>".contains(&a)
}

/// `...`, `>>>`, `<<=`, `>>=`.
fn is_symbol_3(a: u8, b: u8, c: u8) -> bool
    ensures { result ≡ spec.is_symbol_3 a b c }
{
    a == b
        && ((a == b'.' && c == b'.')
            || (a == b'>' && c == b'>')
            || (a == b'<' && c == b'=')
            || (a == b'>' && c == b'='))
}

/// `>>>=`.
fn is_symbol_4(a: u8, b: u8, c: u8, d: u8) -> bool
    ensures { result ≡ spec.is_symbol_4 a b c d }
{
    a == b'>' && b == b'>' && c == b'>' && d == b'='
}
