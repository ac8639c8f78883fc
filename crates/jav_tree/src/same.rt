//! Trees that are equal but for places.
mod expr;
mod stmt;
mod types;
mod unit;

use expr::{same_all, same_maybe};
use types::{same_text, same_texts, same_type};
