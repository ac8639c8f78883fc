//! The names of locals in scope and of parameters, each found in about the same time however many there are (JLS 6.3, 6.4.1).

mod few;
mod indexed_names;
mod nearest;
mod param_names;
mod scope;
mod scope_names;

pub use param_names::ParamNames;
pub use scope_names::ScopeNames;
