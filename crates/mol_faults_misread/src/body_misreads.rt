//! Which names in bodies and other values of a program read as something else than what they are the names of, where they are printed
//! (JLS 14).

mod blocks;
mod body_reader;
mod branches;
mod cell_place;
mod declarations;
mod expressions;
mod loops;
mod supers;
mod values;

pub use body_reader::BodyReader;
pub use cell_place::CellPlace;
pub use mol_faults_expr::{Misread, Misreads};
