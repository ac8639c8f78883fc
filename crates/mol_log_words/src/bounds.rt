//! How many of something there may be.

/// Which counts are allowed.
#[derive(Clone, Copy, Debug, PartialEq, Eq)]
pub enum Bounds {
    /// Arguments: at most 255.
    Few,
    /// Sizes of an array: 1 to 255.
    Sizes,
    /// At least one.
    Positive,
    /// Any number.
    Any,
}
