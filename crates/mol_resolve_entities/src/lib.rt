//! The entities of classes and members of source files, made of the parts that are read of them: they are those that the definitions
//! list, and repeated parameters are faults.
#![tactic(auto)]

mod class;
mod declaration;
mod field;
mod file_entities;
mod member_entities;
mod method;
mod param;
mod repeated;
mod words;

pub use class::class_entity;
pub use declaration::declaration_entity;
pub use field::field_entity;
pub use file_entities::entities_read;
pub use member_entities::{
    MemberEntities, MemberIds, MethodIds, constructor_made, field_made, method_made,
};
pub use method::method_entity;
pub use param::{filler, listed};
pub use repeated::note_repeated;
