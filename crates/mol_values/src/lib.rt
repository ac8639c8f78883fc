//! What is asked of the values of cells and their trees beside the types themselves: whether two are the same, and values
//! with other identities.
#![tactic(auto)]

mod renamed;
mod same;

pub use renamed::{rename_known, rename_value};
pub use same::{
    same_argument, same_block, same_body, same_declarator, same_else, same_expr, same_if, same_let,
    same_node, same_notes, same_param, same_start, same_statement, same_type, same_value,
    same_words,
};
