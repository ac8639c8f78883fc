//! Lines and columns of a source.
ghost use Rattle.std.specs.Prelude.{◌≡◌, ◌+◌, ◌<◌, ◌≤◌, ◌^◌, length};
ghost use Rattle.mol_base.specs.Lines as spec;

use crate::lexical::byte_at;

/// The line and the column of the byte at `at`, or of the end. Both count from 1; a line ends at LF, CR
/// or CR LF, and the column counts characters: bytes that begin one in UTF-8.
pub fn line_and_column(bytes: &[u8], at: usize) -> (u32, u32)
    requires inside { at ≤ length bytes.now }
    requires small { length bytes.now + 1 < 2 ^ 32 }
    ensures line { result.0 ≡ spec.line bytes.now at }
    ensures column { result.1 ≡ spec.column bytes.now at }
{
    let mut line: u32 = 1;
    let mut column: u32 = 1;
    for place in 0..at {
        if ends_line(bytes, place) {
            line += 1;
            column = 1;
        } else if begins_character(bytes, place) {
            column += 1;
        }
    }
    (line, column)
}

/// Whether the byte at a place is the last of a line end.
fn ends_line(bytes: &[u8], place: usize) -> bool
    requires { place < length bytes.now }
    ensures { result ≡ spec.ends_line bytes.now place }
{
    let byte = byte_at(bytes, place);
    byte == b'\n' || (byte == b'\r' && byte_at(bytes, place + 1) != b'\n')
}

/// Whether a character of UTF-8 begins at a place.
fn begins_character(bytes: &[u8], place: usize) -> bool
    ensures { result ≡ spec.begins_character bytes.now place }
{
    !(128..=191).contains(&byte_at(bytes, place))
}
