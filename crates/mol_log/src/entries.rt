//! The entries of a log: an operation and its stamp, and how a row of a log is read as one.

mod additions;
mod changes;
mod entry;
mod read;
mod trees;

pub use entry::Entry;
pub use read::read_entry;
