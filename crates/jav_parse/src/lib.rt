//! The parser: the tokens of a Java source to its tree, or the first bad token.
#![tactic(auto)]

mod reading;

pub use jav_parse_unit::{Feature, ParseFault};
pub use reading::{parse, parse_body, parse_expr, parse_member, parse_type};
