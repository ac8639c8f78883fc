//! The locals and parameters of a body of a program while it is gone through, and what names are where it is written.
#![tactic(auto)]

mod body_locals;
mod body_places;
mod scope_names;

pub use body_locals::{BodyLocal, BodyLocals};
pub use body_places::{Importable, InBody, Places};
pub use scope_names::{ParamNames, ScopeNames};
