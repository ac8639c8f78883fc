//! The locals of a body of a program while it is gone through: which were declared, and which of them are in scope (JLS 6.3, 14.4).

mod body_local;
mod body_locals;
mod entering;

pub use body_local::BodyLocal;
pub use body_locals::BodyLocals;
