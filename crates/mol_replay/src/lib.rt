//! Replay: a log is applied to the base over which it was recorded, entry after entry.
#![tactic(auto)]

mod applying;
mod digests;
mod fault;
mod replaying;
mod tidying;

pub use applying::apply_log;
pub use digests::digest;
pub use fault::{Inapplicable, ReplayFault};
pub use replaying::{replay, replay_on};
pub use tidying::replay_tidied;
