//! What is read of the headers of members of source files: types, and the parameters of a declaration. What names mean at a place, an
//! implementation of `Names` answers.

mod params;
mod types;

pub use params::read_params;
pub use types::read_tree;
