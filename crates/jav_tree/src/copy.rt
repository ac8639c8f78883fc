//! Copies of trees, each equal to its source.
mod expr;
mod stmt;
mod types;
mod unit;

pub use expr::{copy_all, copy_maybe};
pub use types::copy_texts;
pub use unit::{copy_params, copy_parent};
