//! Which names of expressions of a program read as something else than what they are the names of, where the expressions are printed, and
//! what they read as instead.
#![tactic(auto)]

mod calls;
mod chains;
mod constructors;
mod creations;
mod expr_reader;
mod exprs;
mod fields;
mod followers;
mod methods;
mod misreads;
mod operands;
mod paths;
mod reading;
mod reads;
mod spelled;
mod types;
mod values;
mod variables;

pub use expr_reader::ExprReader;
pub use misreads::{Misread, Misreads};
pub use mol_scope::{MemberIndex, NamePlace, Target, VariablePlace};
