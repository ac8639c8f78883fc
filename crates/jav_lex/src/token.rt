//! A token with its place.
ghost use Rattle.std.specs.Prelude.{◌≡◌, IfOk};

use mol_base::{OutOfMemory, Text, TokenKind};
use std::alloc::Global;

/// A token: its kind, its text, and the bytes at which it starts and ends (the end is not part of it).
#[derive(Debug, Drop)]
pub struct Token {
    pub kind: TokenKind,
    pub text: Text,
    pub start: u32,
    pub end: u32,
}

impl Token {
    /// A token that equals this one.
    pub fn copy(&self, alloc: Global) -> Result<Token, OutOfMemory>
        ensures { IfOk result (λ copy. copy ≡ self.now) }
    {
        Ok(Token {
            kind: self.kind,
            text: self.text.copy(alloc)?,
            start: self.start,
            end: self.end,
        })
    }
}
