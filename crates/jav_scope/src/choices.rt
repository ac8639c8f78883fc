//! The static type of a choice between two values.

mod choice;
mod unread;

pub use choice::common;
