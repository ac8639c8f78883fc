//! Of what conflicts of pairs are.
use mol_base::Id;
use mol_values_types::Cell;

/// Of what a conflict of a pair is. Its values and its stamps follow from that. The order is that of conflicts.
#[derive(Clone, Copy, PartialEq, Eq, PartialOrd, Ord)]
pub(crate) enum Pair {
    /// A cell that both logs set.
    Twice(Cell),
    /// An entity that is gone after one log, and changed by the other.
    GoneChanged(Id),
    /// An entity that is gone after one log, and a cell in which the other uses it.
    GoneUsed(Id, Cell),
}
