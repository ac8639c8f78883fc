//! What the names in a cell of a table are where they are written, and whether their simple names read as them there.

mod above;
mod body_names;
mod file_names;
mod methods;
mod params;
mod places;
mod variables;

pub use body_names::BodyNames;
pub use file_names::{AllSimple, FileNames};
pub use mol_scope::MemberIndex;
pub use mol_spell_places::Places;
