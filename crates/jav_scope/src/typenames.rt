//! What the types that are written in source files read as, with the texts of those outside.

mod reading;
mod seen;

pub use reading::{TypeReading, type_reading};
pub use seen::seen_type;
