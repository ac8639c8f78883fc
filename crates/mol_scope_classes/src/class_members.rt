//! The members of each class of a table that live.

mod class_member;
mod class_members;
mod grouping;
mod owned;

pub use class_member::ClassMember;
pub use class_members::ClassMembers;
