//! The members that the classes of a table declare, by their names, and where methods are declared.

mod collected;
mod constructors;
mod declaring;
mod entries;
mod living;
mod member_index;
mod members;
mod named;
mod nearest;
mod own;
mod owner;
mod owners;

pub use member_index::MemberIndex;
pub use mol_scope_classes::superclass_of;
pub use nearest::Nearest;
