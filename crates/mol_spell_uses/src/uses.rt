//! What the names of a program use where it is written, beside members and variables: classes, imported types, and names outside.

mod expr_uses;
mod names;
mod used;
mod uses;

pub use expr_uses::ExprUses;
pub use used::Use;
pub use uses::Uses;
