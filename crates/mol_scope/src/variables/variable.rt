//! What the name of a variable is.
use mol_base::Id;

/// A local, a parameter or a field.
#[derive(Clone, Copy)]
pub enum Variable {
    /// A local, by its place among the names in scope, from 0.
    Local(usize),
    /// A parameter, by its place, from 0.
    Param(usize),
    /// A field.
    Field(Id),
}
