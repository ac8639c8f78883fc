//! The imports of a source file, by their simple names.

mod entries;
mod import_index;

pub use import_index::ImportIndex;
