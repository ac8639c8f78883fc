//! What the names of a program use where it is written.
#![tactic(auto)]

mod body_uses;
mod uses;

pub use body_uses::{BodyUses, add_declared_type};
pub use uses::{ExprUses, Use, Uses};
