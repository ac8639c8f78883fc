//! What a parser of the subset stands on: sorts of tokens, a cursor over them, parts of trees with their heights, and the
//! rules of names and types.
#![tactic(auto)]

pub mod limits;
pub mod sort;
pub mod stop;
pub mod tall;
pub mod tokens;
pub mod types;
