//! Types as they are read.
ghost use Rattle.std.specs.Prelude.{◌≡◌};

use jav_names::SeenType;
use mol_values_types::IType;

/// A type as it is read: as a program keeps it, and as the rules on names look at it.
#[derive(Drop)]
pub struct ReadType {
    /// The type of a program.
    pub tree: IType,
    /// The type with its class, or its text.
    pub ty: SeenType,
}

impl ReadType {
    /// The type of a program alone. It takes no memory.
    pub fn into_tree(self) -> IType
        ensures { result ≡ self.tree }
    {
        self.tree
    }
}
