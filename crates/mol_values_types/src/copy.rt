//! Copies that equal their source.
mod iblock;
mod iexpr;
mod itype;
mod texts;
mod value;

pub(crate) use iexpr::{copy_all, copy_arguments, copy_maybe};
pub use texts::copy_texts;
