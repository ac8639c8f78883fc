//! Faults of names: names that are printed and read as something else than what they are the names of, or as nothing.
#![tactic(auto)]

mod body_misreads;
mod misread_faults;

pub use body_misreads::{BodyReader, CellPlace, Misread, Misreads};
pub use misread_faults::{MisreadName, misread, misread_names};
