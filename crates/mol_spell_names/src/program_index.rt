//! What is looked up in a program by its names: made once, for all that walk over its files.

mod kept_uses;
mod program_index;

pub use program_index::ProgramIndex;
