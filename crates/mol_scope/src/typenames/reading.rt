//! What the names of types read as.
use mol_base::{Id, Text};

/// What the name of a type reads as.
#[derive(Clone, Copy)]
pub enum TypeReading<'a> {
    /// A class of the program that lives.
    Class(Id),
    /// An outside type that is imported: its full name, and the names that follow, with dots between them.
    Imported(&'a Text, &'a str),
    /// An outside type as it is written.
    Written,
    /// There is no such type.
    Nothing,
}
