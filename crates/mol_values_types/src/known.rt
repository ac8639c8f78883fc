//! What an identity is known as.
ghost use Rattle.std.specs.Prelude.{◌≡◌};
ghost use Rattle.mol_values_types.specs.Slots.{kind_of_known};

use crate::{Kind, MethodKind};
use mol_base::Id;

/// What an identity names, with all that the condition of an operation may ask of it. No operation
/// changes it once the identity is known.
#[derive(Clone, Copy, Debug, PartialEq, Eq)]
pub enum Known {
    Class,
    /// What all declarations of one method share, and how it is called.
    Method(MethodKind),
    /// A declaration of this method.
    Decl(Id),
    Field,
    /// A parameter of this method. It is no entity and has no cells.
    Param(Id),
}

impl Known {
    /// What an identity names that is known so.
    pub fn kind(self) -> Kind
        ensures { result ≡ kind_of_known self }
    {
        match self {
            Known::Class => Kind::Class,
            Known::Method(_) => Kind::Method,
            Known::Decl(_) => Kind::Decl,
            Known::Field => Kind::Field,
            Known::Param(_) => Kind::Param,
        }
    }
}
