//! Why logs are refused, as reports write it.
#![tactic(auto)]

mod limits;
mod log_faults;
mod op_faults;
mod replay_faults;

pub use limits::limit_word;
pub use log_faults::log_fault_line;
pub use replay_faults::{plain_fault_line, replay_fault_line};
