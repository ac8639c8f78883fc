//! What the first of several names with dots between them reads as in the source file of a class of a table.

mod first_types;
mod leftmost_names;
mod reading;

pub use first_types::first_type;
pub use leftmost_names::leftmost;
pub use mol_scope_classes::superclass_of;
pub use mol_scope_members::{MemberIndex, field_of, method_of, super_method};
pub use reading::{FirstType, Leftmost};
