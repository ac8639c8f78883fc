//! Operations: what an entry of a log does to a program. Thirteen kinds, and one law for all of them.
#![tactic(auto)]

mod add_class;
mod add_constructor;
mod add_field;
mod add_method;
mod add_override;
mod change_signature;
mod conditions;
mod copies;
mod delete;
mod entries;
mod fault;
mod mentions;
mod move_class;
mod move_method;
mod new_method;
mod object;
mod op;
mod operation;
mod params;
mod rename_class;
mod rename_method;
mod set_body;
mod set_value;
mod writes;

pub use add_class::AddClass;
pub use add_constructor::AddConstructor;
pub use add_field::AddField;
pub use add_method::AddMethod;
pub use add_override::AddOverride;
pub use change_signature::ChangeSignature;
pub use delete::Delete;
pub use entries::{Entry, Stop, apply_all};
pub use fault::{ApplyFault, OpFault};
pub use move_class::MoveClass;
pub use move_method::MoveMethod;
pub use op::Op;
pub use operation::{Operation, apply_both, apply_fitting};
pub use rename_class::RenameClass;
pub use rename_method::RenameMethod;
pub use set_body::SetBody;
pub use set_value::SetValue;
