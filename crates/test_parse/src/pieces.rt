//! Texts that are written short.
use mol_base::OutOfMemory;
use std::alloc::Global;

/// The pieces of a line, each as often as it says, with a space after each; `\n` is the end of a line.
pub fn text_of(alloc: Global, pieces: &str) -> Result<String, OutOfMemory> {
    let mut text = String::new(alloc);
    for piece in pieces.split(' ') {
        let (count, piece) = counted(piece);
        let piece = if piece == "\\n" { "\n" } else { piece };
        for _ in 0..count {
            text.push_str(piece)?;
            text.push(' ')?;
        }
    }
    Ok(text)
}

/// How often a piece is written, and what of it: `3*x` is three of `x`.
fn counted(piece: &str) -> (usize, &str) {
    let (count, repeated) = piece.split_once('*').unwrap_or(("1", piece));
    if repeated.is_empty() {
        return (1, piece);
    }
    match count.parse() {
        Ok(count) => (count, repeated),
        Err(_) => (1, piece),
    }
}
