//! What names in source files read as: the look-ups of a scope, made over a list of source files, of classes, imports, members,
//! variables and types; and what is above a class.
#![tactic(auto)]

mod ancestors;
mod ascent;
mod choices;
mod entries;
mod found;
mod imports;
mod leftmost;
mod lookups;
mod member_entries;
mod members;
mod object;
mod places;
mod reading;
mod scope;
mod source;
mod superclasses;
mod type_names;
mod typenames;
mod variables;

pub use ancestors::{is_ancestor, next_up};
pub use ascent::{circles, far};
pub use choices::common;
pub use entries::simple_name;
pub use found::{Found, Leftmost, MemberRef, VarRef};
pub use imports::ImportIndex;
pub use object::is_object_method;
pub use scope::Scope;
pub use source::SourceUnit;
pub use typenames::{TypeReading, seen_type, type_reading};
