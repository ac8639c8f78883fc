//! What the names of variables read as in the classes of a table.

mod place;
mod variable;

pub use mol_scope_members::{MemberIndex, field_of, method_of, super_method};
pub use place::VariablePlace;
pub use variable::Variable;
