//! JSON objects of the rows of a log, made member after member, and of their parts; values of cells as JSON.
#![tactic(auto)]

mod object;
mod parts;
mod values;

pub use object::Object;
pub use values::value_data;
