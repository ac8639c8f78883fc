//! Whether trees and values are equal.
mod iblock;
mod iexpr;
mod itype;
mod texts;
mod value;

pub use iblock::{
    same_block, same_body, same_declarator, same_else, same_if, same_let, same_node, same_start,
    same_statement,
};
pub(crate) use iexpr::{same_all, same_arguments, same_maybe};
pub use iexpr::{same_argument, same_expr};
pub use itype::same_type;
pub(crate) use texts::{same_id, same_text, same_texts};
pub use value::{same_notes, same_param, same_value, same_words};
