//! Expressions and types of a program as trees of a source file: each name by what it is the name of (JLS 6.5, 15). What is asked where
//! they are written, an implementation of `Names` answers.
#![tactic(auto)]

mod calls;
mod classes;
mod dotted;
mod expr_writer;
mod importable;
mod listed;
mod members;
mod names;
mod operands;
mod operators;
mod trees;
mod type_place;
mod types;

pub use expr_writer::ExprWriter;
pub use importable::Importable;
pub use names::Names;
pub use type_place::TypePlace;
