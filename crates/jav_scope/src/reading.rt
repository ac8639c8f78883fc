//! What the name of a type reads as, but for texts.

/// A class, an outside type that is imported, an outside type as it is written, or nothing.
#[derive(Clone, Copy)]
pub(crate) enum Reading {
    Class(u32),
    Imported,
    Written,
    Nothing,
}
