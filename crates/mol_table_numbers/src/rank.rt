//! Where something stands in the printed order.
use mol_base::Id;

/// By the part of the order, then by the class, by what prints there, by the place in what belongs to
/// that, and last by identity.
#[derive(Clone, Copy, PartialEq, Eq, PartialOrd, Ord)]
pub(crate) struct Rank {
    /// 0 for classes, 1 for fields and declarations, 2 for methods and parameters.
    pub part: u8,
    /// The number of the class, from 1; 0 for none.
    pub class: u32,
    /// The class, field or declaration that prints.
    pub printed: Id,
    /// 0, and for a parameter its place in its list, from 1.
    pub place: usize,
    pub own: Id,
}
