//! What simple names stand for in the source file of a class, and what it imports, by what its names use (JLS 6.4.1, 7.5.1).

mod bearers;
mod importables;
mod imports;
mod simple_names;

pub use mol_spell_uses::Uses;
pub use simple_names::SimpleNames;
