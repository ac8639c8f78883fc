//! What the uses of members mean: of fields, methods and constructors that look-ups in source files find (JLS 15.9, 15.11, 15.12).

mod arguments;
mod calls;
mod creations;
mod fields;

pub use calls::{call_here, call_of, call_through, super_call};
pub use creations::{created, super_init};
pub use fields::{field_of, static_field};
