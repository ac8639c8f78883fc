//! What the value of a cell mentions: the classes, fields, methods and parameters that are named in it.

mod body;
mod expressions;
mod mention;
mod mentions;
mod value;

pub use mention::{Mention, Role};
pub use mentions::Mentions;
pub use value::mentions_of;
