//! Classes that are met going up from one.
use mol_base::Id;

/// Where to look next for a member going up from a class: the nearest class on its path that has one, or the first of the path.
#[derive(Clone, Copy)]
pub struct Nearest {
    pub class: Id,
    /// How many superclasses further up it stands.
    pub steps: usize,
}
