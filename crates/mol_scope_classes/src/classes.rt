//! The classes of a table by their full names, and what each of them extends.

mod class_index;
mod entries;
mod superclasses;

pub use class_index::ClassIndex;
pub use superclasses::superclass_of;
