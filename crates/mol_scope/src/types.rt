//! The static types of values of a program: their definitions are those of `jav_names`, with identities as the keys of classes.

mod equal_types;
mod equal_values;
mod items;
mod static_type;

pub use equal_values::same_values;
pub use static_type::StaticType;
