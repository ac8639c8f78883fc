//! The faults between members of source files: of one class, or of a class and its ancestors.

mod class_members;
mod methods;
mod related;
mod rows;

pub use mol_resolve_members::Members;
pub use related::Related;
