//! Laws of what is printed: each tree of the grammar is printable, what the layout prints parses back, and places make no difference.
#![tactic(auto)]

mod layout;
mod pieces;
mod places;
mod printable;

pub use layout::printed_text;
pub use pieces::pieces_lex;
pub use places::places_are_not_printed;
pub use printable::{grammar_is_narrow, grammar_is_printable};
