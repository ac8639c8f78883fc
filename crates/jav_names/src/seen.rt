//! Types as the rules on names look at them, and the static types of values: their definitions are those of the rules, with the
//! numbers of source files as the keys of classes.

mod seen_type;
mod static_type;

pub use seen_type::SeenType;
pub use static_type::StaticType;
