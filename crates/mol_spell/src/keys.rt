//! The source files of a table in their order: which classes have one, and at which paths.

mod listing;
mod ordering;
mod paths;
mod unit_key;

pub use ordering::unit_keys;
pub use unit_key::UnitKey;
