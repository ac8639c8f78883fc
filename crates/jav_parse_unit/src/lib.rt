//! Declarations, whole files and whole lists of tokens: the rules as functions in `specs`, and the code that follows them.
//! `read_unit` and its like answer as their rules do.
#![tactic(auto)]

pub mod fault;
pub mod feature;
pub mod member;
pub mod reading;
pub mod unit;
pub mod words;

pub use fault::ParseFault;
pub use feature::Feature;
pub use reading::{Language, read_body, read_expr, read_member, read_type, read_unit};
