//! The topmost declaration of each method of a table.

mod higher;
mod highest;
mod topmost;
mod unordered;

pub use topmost::Topmost;
