//! Single bytes, and the character that begins some bytes.
ghost use Rattle.std.specs.Prelude.{◌≡◌, ◌+◌, ◌<◌, ◌≤◌, length, slice_index, false};
ghost use Rattle.mol_base.specs.Lexical.Characters as spec;
ghost use Rattle.mol_base.specs.Lexical.Escapes.{IsBeforeEscape};

/// Whether the byte is white space: space, tab, form feed, CR or LF (JLS 3.6).
pub fn is_space(byte: u8) -> bool
    ensures { result ≡ spec.is_space byte }
{
    byte == b' ' || byte == b'\t' || byte == 12 || byte == b'\r' || byte == b'\n'
}

/// Whether the byte ends a line: CR or LF.
pub fn is_line_end(byte: u8) -> bool
    ensures { result ≡ spec.is_line_end byte }
{
    byte == b'\r' || byte == b'\n'
}

/// Whether the byte is one of the digits 0 to 9.
pub fn is_digit(byte: u8) -> bool
    ensures { result ≡ spec.is_digit byte }
{
    (b'0'..=b'9').contains(&byte)
}

/// The byte at an index, or 0 past the end.
pub fn byte_at(bytes: &[u8], index: usize) -> u8
    ensures { result ≡ slice_index bytes.now index }
{
    bytes.get(index).copied().unwrap_or(0)
}

/// How many bytes a character has that begins with this byte.
pub fn width(byte: u8) -> usize
    ensures same { result ≡ spec.width byte }
    ensures some { 0 < result }
{
    if byte < 128 {
        1
    } else if byte < 224 {
        2
    } else if byte < 240 {
        3
    } else {
        4
    }
}

/// The character whose UTF-8 begins the bytes: none where they begin with no well-formed sequence.
pub fn first_char(bytes: &[u8]) -> Option<char>
    ensures { result ≡ spec.first_char bytes.now }
{
    match bytes {
        [first, ..] if first.is_ascii() => Some(char::from(*first)),
        _ => first_decoded(bytes),
    }
}

/// The first character, decoded.
#[tactic(auto, unfolding(crate::specs::Lexical::Characters::first_char))]
fn first_decoded(bytes: &[u8]) -> Option<char>
    ensures { result ≡ spec.first_char bytes.now }
{
    let width = width(byte_at(bytes, 0));
    if bytes.len() < width {
        return None;
    }
    match std::str::from_utf8(&bytes[..width]) {
        Ok(front) => front.chars().next(),
        Err(_) => None,
    }
}

/// How many bytes stand before the first backslash that begins a Unicode escape (JLS 3.3): all of them
/// where there is none.
pub fn before_unicode_escape(bytes: &[u8]) -> usize
    ensures first { IsBeforeEscape bytes.now result }
    ensures same { result ≡ spec.before_unicode_escape false bytes.now }
    ensures within { result ≤ length bytes.now }
{
    let mut passed = 0;
    let mut odd = false;
    let mut rest = bytes;
    while let [first, after @ ..] = rest {
        let begins = !odd && *first == b'\\';
        if begins && byte_at(after, 0) == b'u' {
            return passed;
        }
        odd = begins;
        passed += 1;
        rest = after;
    }
    passed
}
