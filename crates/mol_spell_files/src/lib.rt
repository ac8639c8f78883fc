//! The files of a program as paths and bytes: what they are, their digest, and the limits of what is written.
#![tactic(auto)]

mod append;
mod bundle;
mod files;
mod limits;

pub use append::push_number;
pub use bundle::digest_of_files;
pub use files::{ProgramFiles, fitted, program_files};
pub use limits::{LimitFault, refuse_large};
