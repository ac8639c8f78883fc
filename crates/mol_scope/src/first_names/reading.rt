//! What the first of several names reads as.
use crate::variables::Variable;
use mol_base::{Id, Text};

/// What the first of several names with dots between them is.
#[derive(Clone, Copy)]
pub enum Leftmost<'a> {
    /// A variable.
    Variable(Variable),
    /// None: it begins the name of a type, or is outside.
    Type(FirstType<'a>),
}

/// What the first of several names is that is no variable.
#[derive(Clone, Copy)]
pub enum FirstType<'a> {
    /// A class that lives, and the number of names in its shortest spelling, from 1.
    Class(Id, usize),
    /// An outside type that is imported, by its full name.
    Imported(&'a Text),
    /// It is outside, as it is written.
    Outside,
}
