//! Expressions as they are read: the tree of a program, whether it is `this`, and its static type; and what each kind of expression
//! makes of its parts. The definitions are those of `mol_resolve_rules`, with the numbers of source files as the keys of classes.

pub mod arrays;
pub mod calls;
pub mod creations;
pub mod fields;
mod meant;
pub mod operators;
mod read_type;

pub use meant::Meant;
pub use read_type::ReadType;
