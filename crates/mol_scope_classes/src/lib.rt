//! The classes of a table: what their cells hold, their full names, what each extends, and the members that live.
#![tactic(auto)]

mod cells;
mod class_members;
mod classes;
mod hierarchy;

pub use cells::{
    is_constructor, is_live, is_living_class, is_static_field, living_method_of, name_of, owner_of,
    package_of, params_of, parent_of,
};
pub use class_members::{ClassMember, ClassMembers};
pub use classes::{ClassIndex, superclass_of};
pub use hierarchy::{Hierarchy, Paths, Position, living_parent};
