//! Look-ups by name in a sorted list, where a name may be spelled in parts.

mod entry;
mod index;
mod spelling;

pub use entry::Entry;
pub use index::Index;
pub use spelling::Spelling;
