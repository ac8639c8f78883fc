//! The members of the classes of a table by their names: declared, inherited, and the topmost declaration of each method.
#![tactic(auto)]

mod declaring;
mod inherited;
mod topmost;

pub use declaring::{MemberIndex, Nearest, superclass_of};
pub use inherited::{field_of, is_ancestor, method_of, super_constructor, super_method};
pub use topmost::Topmost;
