//! Entities that are to be added.
use mol_base::{Id, List};
use mol_values_types::{Kind, Value};

/// An entity with all that its cells are to hold, the values in the order of the slots.
#[derive(Drop)]
pub struct NewEntity {
    pub id: Id,
    pub kind: Kind,
    pub values: List<Value>,
}
