//! What types, expressions and bodies mention: each is known, and of the right kind.
mod iblock;
mod iexpr;
mod seen;

pub(crate) use iblock::check_body;
pub(crate) use iexpr::{check_maybe, check_parent, check_type};
pub(crate) use seen::{Seen, entity_of, is_listed};
