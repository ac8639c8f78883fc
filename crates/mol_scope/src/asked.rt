//! What names of a program read as where they are printed, by what each of them asks.

mod answer;
mod calls;
mod constructors;
mod dotted_text;
mod laws;
mod members;
mod names;
mod place;
mod static_members;
mod target;
mod types;

pub use answer::Answer;
pub use dotted_text::DottedText;
pub use laws::answers_decided;
pub use mol_scope_members::{MemberIndex, field_of};
pub use place::NamePlace;
pub use target::Target;
