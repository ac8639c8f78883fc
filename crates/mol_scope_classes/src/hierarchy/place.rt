//! Places of a forest.
/// A place, by the numbers of others. Numbers grow downwards, and a place at the top names itself.
#[derive(Clone, Copy)]
pub(crate) struct Place {
    /// The next place up.
    pub above: usize,
    /// A place further up, or the next one.
    pub jump: usize,
    /// How long the jump is: as many steps as 2 to this power less 1.
    pub rank: u8,
}
