//! The members of source files, each with its types as they are read.

mod member_row;
mod members;

ghost use Rattle.mol_resolve_members.specs.members.Viewed.{RowsViewed};

pub use member_row::MemberRow;
pub use members::Members;

/// The law of rows: the row of each field and declaration of the view has its type, its parameters and whether it is static.
#[tactic(auto, using(crate::proofs::members_lemmas::RowsViewed::rows_viewed))]
pub fn rows_viewed()
    ensures { RowsViewed }
{}
