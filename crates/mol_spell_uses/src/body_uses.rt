//! What the names in bodies and other values of a program use where they are printed, beside members and variables (JLS 14).

mod blocks;
mod body_uses;
mod branches;
mod declarations;
mod expressions;
mod loops;
mod types;
mod values;

pub use body_uses::BodyUses;
pub use types::add_declared_type;
