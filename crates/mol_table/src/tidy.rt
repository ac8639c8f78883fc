//! Values and trees, tidied.
mod iblock;
mod iexpr;
mod value;

use iblock::tidy_body;
use iexpr::{tidy_all, tidy_arguments, tidy_expr, tidy_maybe};
pub(crate) use value::tidy_value;
