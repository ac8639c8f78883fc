//! Within which limits is read.
use std::alloc::Global;

/// Limits on what is read.
#[derive(Clone, Copy)]
pub struct Limits {
    pub alloc: Global,
    /// The greatest number of arguments, parameters, and brackets of a type or array creation.
    pub most: usize,
    /// More than there are tokens: no list without a limit of its own is as long.
    pub turns: usize,
    /// Whether names with dots, and array types, are made as trees. Where heights alone are asked for,
    /// they may be as long as the source, and trees of them too deep to let go.
    pub builds: bool,
}
