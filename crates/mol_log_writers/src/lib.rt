//! Who wrote last: the cells that operations write, and indexes of the last writers of a log.
#![tactic(auto)]

mod cells;
mod last_writes;
mod side;
mod written;

pub use cells::cells_of;
pub use last_writes::LastWrites;
pub use side::Side;
