//! Bytes that are written as text: `%` and two hexadecimal digits stand for a byte, and any other character for itself.
use mol_base::OutOfMemory;
use std::alloc::Global;

/// The bytes of such a text. Where no two digits follow a `%`, it stands for `?`.
pub fn bytes_of(alloc: Global, text: &str) -> Result<Vec<u8>, OutOfMemory> {
    let (first, rest) = text.split_once('%').unwrap_or((text, ""));
    let mut bytes = Vec::from_slice(alloc, first.as_bytes())?;
    if !rest.is_empty() {
        for piece in rest.split('%') {
            push_piece(&mut bytes, piece)?;
        }
    }
    Ok(bytes)
}

/// Adds the byte of the two digits that a piece begins with, and what follows them.
fn push_piece(bytes: &mut Vec<u8>, piece: &str) -> Result<(), OutOfMemory> {
    let (digits, rest) = piece.split_at_checked(2).unwrap_or((piece, ""));
    bytes.push(u8::from_str_radix(digits, 16).unwrap_or(b'?'))?;
    bytes.extend_from_slice(rest.as_bytes())?;
    Ok(())
}

/// Bytes as such a text.
pub fn text_of(alloc: Global, bytes: &[u8]) -> Result<String, OutOfMemory> {
    let mut text = String::new(alloc);
    for byte in bytes {
        if byte.is_ascii_graphic() || *byte == b' ' {
            text.push(char::from(*byte))?;
        } else {
            text.push_str(format!(in alloc; "%{byte:02X}")?.as_str())?;
        }
    }
    Ok(text)
}
