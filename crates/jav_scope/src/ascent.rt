//! Going up from classes: where many steps lead, and which classes have themselves above them.

mod steps;
mod super_circles;

pub use steps::far;
pub use super_circles::circles;
