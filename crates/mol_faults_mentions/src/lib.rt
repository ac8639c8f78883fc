//! What values of a program mention, and the classes of which they create objects by their default constructors.
#![tactic(auto)]

mod creations;
mod mentions;

pub use creations::default_creations;
pub use mentions::{Mention, Mentions, Role, mentions_of};
