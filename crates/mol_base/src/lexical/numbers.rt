//! Numbers (JLS 3.10.1, 3.10.2).
ghost use Rattle.std.specs.Prelude.{◌≡◌, ◌+◌, ◌<◌, ◌≤◌, length};
ghost use Rattle.mol_base.specs.Lexical.Numbers as spec;

use crate::TokenKind;
use crate::lexical::bytes::{byte_at, is_digit};
use crate::lexical::front::{Flaw, Front};

/// What digits a literal has.
#[derive(Clone, Copy, Debug, PartialEq, Eq)]
enum Radix {
    Binary,
    Octal,
    Decimal,
    Hexadecimal,
}

/// The number at the front of bytes that begin with a digit: the whole run of letters, digits and `_`.
#[tactic(auto, unfolding(crate::specs::Lexical::Numbers::number))]
pub fn number(bytes: &[u8]) -> Front
    ensures { result ≡ spec.number bytes.now }
{
    let len = run_len(bytes);
    let run = &bytes[..len];
    if byte_at(bytes, len) == b'.' || is_float(run) {
        Front::Wrong(Flaw::FloatLiteral, 0)
    } else if is_integer(without_suffix(run)) {
        Front::Taken(TokenKind::Literal, len)
    } else {
        Front::Wrong(Flaw::BadNumber, 0)
    }
}

/// Whether the byte belongs to a run: an ASCII letter, a digit or `_`.
fn is_run_byte(byte: u8) -> bool
    ensures { result ≡ spec.is_run_byte byte }
{
    is_digit(byte) || (b'A'..=b'Z').contains(&byte) || (b'a'..=b'z').contains(&byte) || byte == b'_'
}

fn run_len(bytes: &[u8]) -> usize
    ensures same { result ≡ spec.run_len bytes.now }
    ensures within { result ≤ length bytes.now }
{
    let mut passed = 0;
    let mut rest = bytes;
    while let [first, after @ ..] = rest {
        if !is_run_byte(*first) {
            return passed;
        }
        passed += 1;
        rest = after;
    }
    passed
}

fn begins_hexadecimal(run: &[u8]) -> bool
    ensures { result ≡ spec.begins_hexadecimal run.now }
{
    byte_at(run, 0) == b'0' && (byte_at(run, 1) == b'x' || byte_at(run, 1) == b'X')
}

fn begins_binary(run: &[u8]) -> bool
    ensures { result ≡ spec.begins_binary run.now }
{
    byte_at(run, 0) == b'0' && (byte_at(run, 1) == b'b' || byte_at(run, 1) == b'B')
}

fn is_float_letter(byte: u8) -> bool
    ensures { result ≡ spec.is_float_letter byte }
{
    byte == b'e' || byte == b'E' || byte == b'f' || byte == b'F' || byte == b'd' || byte == b'D'
}

fn is_exponent_letter(byte: u8) -> bool
    ensures { result ≡ spec.is_exponent_letter byte }
{
    byte == b'p' || byte == b'P'
}

fn has_float_letter(run: &[u8]) -> bool
    ensures { result ≡ spec.has_float_letter run.now }
{
    run.iter().any(|byte| is_float_letter(*byte))
}

fn has_exponent_letter(run: &[u8]) -> bool
    ensures { result ≡ spec.has_exponent_letter run.now }
{
    run.iter().any(|byte| is_exponent_letter(*byte))
}

/// Whether a run has what makes it a floating-point literal.
#[tactic(auto, unfolding(crate::specs::Lexical::Numbers::is_float))]
fn is_float(run: &[u8]) -> bool
    ensures { result ≡ spec.is_float run.now }
{
    if begins_hexadecimal(run) {
        has_exponent_letter(run)
    } else {
        !begins_binary(run) && has_float_letter(run)
    }
}

fn is_digit_of(radix: Radix, byte: u8) -> bool
    ensures { result ≡ spec.is_digit_of radix byte }
{
    match radix {
        Radix::Binary => (b'0'..=b'1').contains(&byte),
        Radix::Octal => (b'0'..=b'7').contains(&byte),
        Radix::Decimal => is_digit(byte),
        Radix::Hexadecimal => is_digit(byte)
            || (b'A'..=b'F').contains(&byte)
            || (b'a'..=b'f').contains(&byte),
    }
}

fn may_be_inside(radix: Radix, byte: u8) -> bool
    ensures { result ≡ spec.may_be_inside radix byte }
{
    is_digit_of(radix, byte) || byte == b'_'
}

fn all_inside(radix: Radix, digits: &[u8]) -> bool
    ensures { result ≡ spec.all_inside radix digits.now }
{
    digits.iter().all(|byte| may_be_inside(radix, *byte))
}

/// Whether these are digits, at least one, with underscores between digits only.
#[tactic(auto, unfolding(crate::specs::Lexical::Numbers::is_digits))]
fn is_digits(radix: Radix, digits: &[u8]) -> bool
    ensures { result ≡ spec.is_digits radix digits.now }
{
    is_digit_of(radix, byte_at(digits, 0))
        && is_digit_of(radix, byte_at(digits, digits.len().saturating_sub(1)))
        && all_inside(radix, digits)
}

/// The run without a last `l` or `L`.
fn without_suffix(run: &[u8]) -> &[u8]
    ensures { result.now ≡ spec.without_suffix run.now }
{
    let last = run.len().saturating_sub(1);
    if byte_at(run, last) == b'l' || byte_at(run, last) == b'L' {
        &run[..last]
    } else {
        run
    }
}

/// Whether the run is an integer without suffix.
#[tactic(auto, unfolding(crate::specs::Lexical::Numbers::is_integer))]
fn is_integer(run: &[u8]) -> bool
    ensures { result ≡ spec.is_integer run.now }
{
    if begins_hexadecimal(run) {
        is_digits(Radix::Hexadecimal, &run[2..])
    } else if begins_binary(run) {
        is_digits(Radix::Binary, &run[2..])
    } else if byte_at(run, 0) == b'0' {
        is_digits(Radix::Octal, run)
    } else {
        is_digits(Radix::Decimal, run)
    }
}
