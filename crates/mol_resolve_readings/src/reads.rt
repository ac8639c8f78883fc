//! What is asked of names while trees of source files are read (JLS 6.5), and what the reading of a tree comes to.

mod chain;
mod names;

pub use chain::{Chain, ClassPath};
pub use names::Names;
