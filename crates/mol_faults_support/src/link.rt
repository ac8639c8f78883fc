//! Declarations with what they are found by.
use mol_base::Id;

/// A declaration, and the method or the class by which it is found.
#[derive(Clone, Copy)]
pub(crate) struct Link {
    pub key: Id,
    pub id: Id,
}
