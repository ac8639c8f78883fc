//! Faults of locals: a name that is declared where a local or a parameter of this name is in scope (JLS 6.4).

mod body;
mod clash;
mod clashing;
mod faults;
mod scope;

pub use faults::local_clash;
