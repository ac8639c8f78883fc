//! Lists, texts, identities, stamps and files: the types that every other crate speaks of.
#![tactic(auto)]

mod among;
mod boxed;
mod file;
mod ident;
pub mod lexical;
mod limit;
mod lines;
mod list;
mod memory;
mod modifier;
mod number;
mod operator;
mod ordered;
mod path;
mod reserved;
mod split;
mod tag;
mod tag_fault;
mod text;
mod token_kind;

pub use boxed::Boxed;
pub use file::{File, Place};
pub use ident::{Id, Stamp};
pub use lexical::text_kind;
pub use limit::{MAX_ITEMS, MAX_NAME_BYTES, Which};
pub use lines::line_and_column;
pub use list::List;
pub use memory::{OutOfMemory, both};
pub use modifier::{Modified, are_in_order};
pub use number::number_of;
pub use operator::{binary_level, is_assignment, is_prefix, is_sign, is_step};
pub use ordered::in_order;
pub use path::path_of;
pub use reserved::is_reserved;
pub use tag::{MAX_TAG, Tag};
pub use tag_fault::TagFault;
pub use text::{Text, TextFault};
pub use token_kind::TokenKind;
