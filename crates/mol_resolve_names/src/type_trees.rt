//! Types that are written in source files, as types of a program.

mod named;
mod read;
mod tree;

pub use mol_resolve_members::Numbers;
pub use read::read_type;
