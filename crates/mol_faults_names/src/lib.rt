//! What printed names read as in place of what they are the names of, where they are several with dots between them.
#![tactic(auto)]

mod chains;
mod class_path;
mod first;
mod instead;
mod place;
mod reads;
mod values;
mod variables;
mod word;

pub use mol_scope::{Answer, DottedText, MemberIndex, NamePlace, Target, VariablePlace};
pub use place::InsteadPlace;
