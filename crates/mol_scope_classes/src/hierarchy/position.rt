//! Places on paths of classes.
use mol_base::Id;

/// Where a class stands on its path.
#[derive(Clone, Copy)]
pub struct Position {
    /// The first class of the path.
    pub top: Id,
    /// How many superclasses further up that stands.
    pub depth: usize,
}
