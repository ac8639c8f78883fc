//! The order in which what stands in source files is numbered: the files by their paths, and their members in that order.

mod listed;
mod order;
mod places;
mod positions;

pub use listed::{Listed, list_members};
pub use order::by_path;
pub use places::Places;
