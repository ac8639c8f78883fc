//! Look-ups of identities by an owner, a number of parameters and a name, in a sorted list.

mod entry;
mod index;

pub use entry::{Entry, add_entry};
pub use index::Index;
