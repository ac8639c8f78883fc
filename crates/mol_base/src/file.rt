//! Files, and places in them.
use crate::{List, Text};

/// A file: its path, whose parts are joined by `/`, and its bytes.
#[derive(Debug, Drop)]
pub struct File {
    pub path: Text,
    pub bytes: List<u8>,
}

/// A place in a source file. Line and column count from 1, the column in characters.
#[derive(Debug, Drop)]
pub struct Place {
    pub file: Text,
    pub line: u32,
    pub column: u32,
}
