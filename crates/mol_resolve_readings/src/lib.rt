//! What is asked and what comes of reading an expression: its tree and its static type, the locals in scope, and what names mean.
#![tactic(auto)]

mod locals;
pub mod meant;
mod reads;

pub use locals::{Local, Locals};
pub use meant::{Meant, ReadType};
pub use reads::{Chain, ClassPath, Names};
