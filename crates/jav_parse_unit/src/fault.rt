//! Why tokens have no tree.
use crate::feature::Feature;

/// What is wrong with tokens that are no tree, and the byte, from 0, at which the bad token starts: what
/// stands before it can go on to a tree within the limits, and together with it no longer can.
#[derive(Clone, Copy, Debug, PartialEq, Eq, thiserror::Error)]
pub enum ParseFault {
    /// No tree begins so; or, at the end of the last token, the tokens end too early.
    #[error("something else was expected at byte {0}")]
    Expected(u32),
    /// The token shows a part of Java that is left out.
    #[error("a part of Java that is left out at byte {1}: {0}")]
    Refused(Feature, u32),
    /// A comment stands where a tree has no place for it.
    #[error("a comment out of place at byte {0}")]
    CommentPlace(u32),
    /// Each tree that begins so is higher than 500.
    #[error("too deep at byte {0}")]
    TooDeep(u32),
    /// Each tree that begins so has more than 255 parameters, arguments or pairs of brackets somewhere.
    #[error("too many at byte {0}")]
    TooMany(u32),
    #[error("out of memory")]
    OutOfMemory,
}
