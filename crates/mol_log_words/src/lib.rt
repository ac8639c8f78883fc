//! Single words of a log and types as lists of words: reading and writing them, with what readers of other trees stand on.
#![tactic(auto)]

mod bounds;
mod count;
mod cursor;
mod fault;
mod read;
mod text_form;
mod type_head;
mod type_role;
mod types;
mod write_types;
mod written;

pub use bounds::Bounds;
pub use count::counts;
pub use cursor::Cursor;
pub use fault::{BadWord, Fault};
pub use read::{read_type, whole};
pub use text_form::TextForm;
pub use type_role::TypeRole;
pub use types::{MAX_DIMENSIONS, type_name};
pub use write_types::write_type;
pub use written::Written;
