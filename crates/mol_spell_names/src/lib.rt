//! What the names in the files of a program are where they are written, with the imports that they need.
#![tactic(auto)]

mod body_names;
mod program_index;
mod simple_names;
mod uses;

pub use body_names::{AllSimple, BodyNames, FileNames, MemberIndex, Places};
pub use program_index::ProgramIndex;
pub use simple_names::SimpleNames;
pub use uses::{Uses, file_uses};
