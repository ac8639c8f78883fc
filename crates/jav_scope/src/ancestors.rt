//! The ancestors of classes: the classes that going up over superclasses meets.

mod ancestors;

pub use ancestors::{is_ancestor, next_up};
