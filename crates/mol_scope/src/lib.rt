//! What names read as in the classes of a program: types, variables, members, and the static types of values.
#![tactic(auto)]

mod asked;
mod choices;
mod first_names;
mod typenames;
mod types;
mod variables;

pub use asked::{Answer, DottedText, NamePlace, Target, answers_decided};
pub use choices::common;
pub use first_names::{FirstType, Leftmost, first_type, leftmost};
pub use typenames::{ClassFile, TypeReading, superclass_of};
pub use types::{StaticType, same_values};
pub use variables::{MemberIndex, Variable, VariablePlace, field_of, method_of, super_method};
