//! Faults of what is gone: a cell of what lives that refers to what does not.

mod collected;
mod faults;
mod gone;
mod present;

pub use faults::missing;
