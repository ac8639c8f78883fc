//! What single cells of a table hold, as the rules on names ask for it. No call takes memory.

mod classes;
mod living;
mod members;
mod names;

pub use classes::parent_of;
pub use living::{is_live, is_living_class, living_method_of};
pub use members::{is_constructor, is_static_field, owner_of, params_of};
pub use names::{name_of, package_of};
