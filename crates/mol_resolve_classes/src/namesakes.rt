//! Namesakes: the methods of a class that have one name and take as many parameters, and its constructors that take as many.

mod declaration;
mod differences;
mod group;
mod namesakes;

pub use declaration::Declaration;
pub use differences::Differences;
pub use namesakes::Namesakes;
