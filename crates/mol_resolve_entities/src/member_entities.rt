//! The entities that members of source files are, made of the parts that are read of them.

mod constructor;
mod field;
mod member_entities;
mod member_ids;
mod method;

pub use constructor::constructor_made;
pub use field::field_made;
pub use member_entities::MemberEntities;
pub use member_ids::{MemberIds, MethodIds};
pub use method::method_made;
