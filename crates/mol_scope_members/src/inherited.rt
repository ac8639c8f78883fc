//! What the classes of a table have by themselves or by their superclasses: members by their names, and the classes above them.

mod ancestors;
mod climbed;
mod members;
mod rules;
mod sought;
mod supers;

pub use ancestors::is_ancestor;
pub use members::{field_of, method_of};
pub use supers::{super_constructor, super_method};
