//! The faults that a member has beside others: which of the four kinds there are, and how they are noted.

mod faulty;
mod laws;

pub use faulty::Faulty;
pub use laws::beside_noted;
