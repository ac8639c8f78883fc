//! Expressions as lists of words: reading and writing them, with what readers and writers of statements stand on.
#![tactic(auto)]

mod expr_head;
mod expr_role;
mod read;
mod read_exprs;
mod scope;
mod write_exprs;

pub use expr_role::ExprRole;
pub use read::{MAX_HEIGHT, read_expr};
pub use read_exprs::{arguments, expr, exprs};
pub use scope::Scope;
pub use write_exprs::{add_arguments, add_expr, add_exprs, write_expr};
