//! One command, from its words to the bytes that are written.
#![tactic(auto)]

mod checking;
mod clean_base;
mod command;
mod fault;
mod formatting;
mod kept_base;
mod listing;
mod logs;
mod merging;
mod output;
mod refusal;
mod replaying;
mod report;
mod running;
mod status;
mod store;

pub use mol_faults_rules::{Conflict, ConflictKind, Fault, Target};
pub use mol_log_rows::LogFault;
pub use mol_program::SourceFault;
pub use mol_replay::ReplayFault;
pub use report::USAGE;
pub use running::run;
pub use status::{BaseFault, LogCause, Status};
