//! Members of classes.
use mol_base::Id;
use mol_values_types::Known;

/// A field or a declaration, by its identity, and what it is known as.
#[derive(Clone, Copy)]
pub struct ClassMember {
    pub id: Id,
    pub known: Known,
}
