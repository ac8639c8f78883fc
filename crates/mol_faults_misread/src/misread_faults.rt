//! Faults of names: a name that is printed in a file and reads as something else than what it is the name of, or as nothing.

mod cells;
mod faults;
mod files;
mod names;
mod names_of_file;
mod row;
mod scope;

pub use faults::misread;
pub use mol_faults_expr::Misread;
pub use names::{MisreadName, misread_names};
