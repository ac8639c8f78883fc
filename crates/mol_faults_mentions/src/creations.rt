//! The classes of which values of a program create objects by their default constructors.

mod bodies;
mod exprs;
mod values;

pub use values::default_creations;
