//! Modifiers and comments.
use mol_base::{List, Text};

/// Modifiers, in the order in which they are printed. Those of a declaration of a method are without
/// `abstract` and `static`.
#[derive(Drop)]
pub struct Words {
    pub texts: List<Text>,
}

/// Comments of an entity: before it, and for a class also at the head and at the tail of its braces.
#[derive(Drop)]
pub struct Notes {
    pub front: List<Text>,
    pub head: List<Text>,
    pub tail: List<Text>,
}
