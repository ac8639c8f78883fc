//! Cells: the places of a program that have a value.
use mol_base::Id;

/// What a cell tells of its entity. The order of the variants is the order in which an entity's values
/// are listed.
#[derive(Clone, Copy, Debug, PartialEq, Eq, PartialOrd, Ord, Hash)]
pub enum Slot {
    Live,
    Package,
    Owner,
    Method,
    Name,
    Super,
    Result,
    Params,
    Kind,
    Fixed,
    Words,
    Notes,
    Body,
    Value,
}

/// An entity's identity and a slot. Cells are ordered by identity, then by slot.
#[derive(Clone, Copy, PartialEq, Eq, PartialOrd, Ord, Hash)]
pub struct Cell {
    pub id: Id,
    pub slot: Slot,
}

impl Slot {
    /// All slots, in order.
    pub const ALL: [Slot; 14] = [
        Slot::Live,
        Slot::Package,
        Slot::Owner,
        Slot::Method,
        Slot::Name,
        Slot::Super,
        Slot::Result,
        Slot::Params,
        Slot::Kind,
        Slot::Fixed,
        Slot::Words,
        Slot::Notes,
        Slot::Body,
        Slot::Value,
    ];
}
