//! What the names in the source file of a class use where they are printed.

mod file_cells;
mod uses_of_file;

pub use mol_scope::MemberIndex;
pub use mol_spell_uses::Uses;
pub use uses_of_file::file_uses;
