//! What a printed name uses.
use mol_base::{Id, Text};

/// What a printed name uses, beside members and variables; of what may be imported also whether its simple name is hidden there.
#[derive(Drop)]
pub enum Use {
    /// A class of the program.
    Class(Id, bool),
    /// An imported type, by its full name.
    Import(Text, bool),
    /// A name outside, as it is written.
    Written(Text),
}
