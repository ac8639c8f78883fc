//! What may be imported.
use mol_base::{Id, Text};

/// What may be imported (JLS 7.5.1).
#[derive(Clone, Copy)]
pub enum Importable<'a> {
    /// A class of the program.
    Class(&'a Id),
    /// A type outside, by its full name.
    Import(&'a Text),
}
