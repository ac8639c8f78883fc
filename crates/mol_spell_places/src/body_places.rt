//! Where bodies of a program are written: what their names are, and read as, as locals come into scope on the way.

mod in_body;
mod places;

pub use in_body::InBody;
pub use mol_spell_expr::Importable;
pub use places::Places;
