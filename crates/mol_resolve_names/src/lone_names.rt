//! Names that stand for values in the members of source files: variables, and what is outside (JLS 6.4.1, 6.5.2, 6.5.6.1).

mod lone;
mod value;
mod variable;

pub use lone::{name_alone, name_before};
pub use mol_resolve_members::Finder;
