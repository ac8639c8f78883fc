//! A table as source files: which there are, in their order, and the tree of each.
#![tactic(auto)]

mod file;
mod keys;
mod names_of_file;
mod spelling;
mod spelt_unit;
mod units;

pub use file::file_of;
pub use keys::{UnitKey, unit_keys};
pub use spelling::{file_keys, spell};
pub use spelt_unit::SpeltUnit;
pub use units::UnitWriter;
