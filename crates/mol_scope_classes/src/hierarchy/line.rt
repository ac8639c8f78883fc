//! Classes on the way up.
use indexmap::IndexSet;
use mol_base::Id;

/// Classes that have no place yet, each followed by its superclass, and the number of the place of what the last of them extends.
#[derive(Drop)]
pub(crate) struct Line {
    pub classes: IndexSet<Id>,
    pub above: usize,
}
