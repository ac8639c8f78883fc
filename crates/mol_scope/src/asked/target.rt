//! What names are the names of.
use mol_base::Id;

/// What a name is the name of.
#[derive(Clone, Copy)]
pub enum Target<'a> {
    /// A class.
    Class(Id),
    /// A field.
    Field(Id),
    /// A method or a declared constructor.
    Method(Id),
    /// A parameter.
    Param(Id),
    /// The default constructor of a class.
    Default(Id),
    /// A local, by its number, from 0.
    Local(u32),
    /// Something outside, by its text.
    Outside(&'a str),
}
