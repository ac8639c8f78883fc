//! Why bytes are no tag.

/// Why bytes are no tag; the first of these that holds.
#[derive(Clone, Copy, Debug, PartialEq, Eq, thiserror::Error)]
pub enum TagFault {
    #[error("a tag has at least one byte")]
    Empty,
    #[error("a tag has at most 32 bytes")]
    TooLong,
    /// The first byte that no tag has, by its place.
    #[error("byte {0} is none of a-z, 0-9 and -")]
    BadByte(u32),
}
