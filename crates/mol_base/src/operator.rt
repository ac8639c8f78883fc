//! Operators, and how tightly they bind (JLS 15).
ghost use Rattle.std.specs.Prelude.{◌≡◌};
ghost use Rattle.mol_base.specs.Operators as spec;

use crate::among::is_among;

/// The level of an operator between two operands: 3 for `||`, the loosest, to 12 for `*`, `/` and `%`
/// (JLS 15.17 to 15.24). `None` for any other text, `instanceof` and assignments among them. It takes no
/// memory.
pub fn binary_level(text: &[u8]) -> Option<u8>
    ensures { result ≡ spec.binary_level text.now }
{
    match text {
        b"||" => Some(3),
        b"&&" => Some(4),
        b"|" => Some(5),
        b"^" => Some(6),
        b"&" => Some(7),
        b"==" | b"!=" => Some(8),
        b"<" | b">" | b"<=" | b">=" => Some(9),
        b"<<" | b">>" | b">>>" => Some(10),
        b"+" | b"-" => Some(11),
        b"*" | b"/" | b"%" => Some(12),
        _ => None,
    }
}

const ASSIGNMENTS: [&[u8]; 12] = [
    b"=", b"+=", b"-=", b"*=", b"/=", b"&=", b"|=", b"^=", b"%=", b"<<=", b">>=", b">>>=",
];

const STEPS: [&[u8]; 2] = [b"++", b"--"];

const PREFIXES: [&[u8]; 4] = [b"+", b"-", b"!", b"~"];

const SIGNS: [&[u8]; 4] = [b"+", b"-", b"++", b"--"];

/// Whether the text is `=` or a compound assignment (JLS 15.26). It takes no memory.
pub fn is_assignment(text: &[u8]) -> bool
    ensures { result ≡ spec.is_assignment text.now }
{
    is_among(&ASSIGNMENTS, text)
}

/// Whether the text is `++` or `--` (JLS 15.14, 15.15). It takes no memory.
pub fn is_step(text: &[u8]) -> bool
    ensures { result ≡ spec.is_step text.now }
{
    is_among(&STEPS, text)
}

/// Whether the text is an operator before an operand that is no `++` or `--`: `+`, `-`, `!` or `~`
/// (JLS 15.15). It takes no memory.
pub fn is_prefix(text: &[u8]) -> bool
    ensures { result ≡ spec.is_prefix text.now }
{
    is_among(&PREFIXES, text)
}

/// Whether the text is a sign, `+`, `-`, `++` or `--`: with these begins nothing that is cast to a class or
/// array type (JLS 15.16). It takes no memory.
pub fn is_sign(text: &[u8]) -> bool
    ensures { result ≡ spec.is_sign text.now }
{
    is_among(&SIGNS, text)
}
