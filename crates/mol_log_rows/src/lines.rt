//! The lines of a log (RFC 8259): how they are cut, the header in the first one, and what the others are made of.

mod fault;
mod header;
mod lines;
mod members;
mod object_fault;
mod parts;
mod stamps;

pub use fault::LogFault;
pub use header::{Header, header_value, read_header};
pub use lines::{Line, Lines, check_size, read_line};
pub use members::Members;
pub use object_fault::ObjectFault;
pub use parts::items;
pub use stamps::LastNumbers;
