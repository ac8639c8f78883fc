//! The local variables of a body while it is read: which there are, and which of them are in scope (JLS 6.3, 14.4).

mod local;
mod locals;
mod nearest;
mod scope;

pub use local::Local;
pub use locals::Locals;
