//! Logs: the recorded operations of a branch or of a merge, each entry with its stamp, and their form as bytes, both ways.
#![tactic(auto)]

mod copies;
mod entries;
mod log;
mod objects;
mod reading;
mod writing;

pub use entries::{Entry, read_entry};
pub use log::Log;
pub use mol_log_rows::LogFault;
pub use reading::read_log;
pub use writing::write_log;
