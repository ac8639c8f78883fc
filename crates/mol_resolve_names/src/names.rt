//! What names mean in the members of source files: all that reading their trees asks for.

mod member_names;
mod names;
mod params;

pub use member_names::MemberNames;
pub use mol_resolve_members::Finder;
