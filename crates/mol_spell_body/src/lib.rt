//! Statements and bodies of a program as trees of a source file (JLS 14), with the locals that come into scope on the way. What is asked
//! where they are written, an implementation of `Places` answers.
#![tactic(auto)]

mod blocks;
mod body_writer;
mod branches;
mod declarations;
mod exprs;
mod headers;
mod loops;
mod simple;

pub use body_writer::BodyWriter;
pub use mol_spell_places::Places;
