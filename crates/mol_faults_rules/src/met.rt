//! What misread references have to do with.
use mol_base::Id;

/// What a misread name has to do with: what it is the name of, or what is read instead. Locals, and what is outside, have no cells.
#[derive(Clone, Copy, Debug, PartialEq, Eq)]
pub enum Met {
    Class(Id),
    Field(Id),
    /// A method or a constructor.
    Method(Id),
    Param(Id),
    /// The default constructor of this class (JLS 8.8.9).
    Default(Id),
}
