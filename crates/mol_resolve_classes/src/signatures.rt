//! The members of a class by their signatures: which of them repeat an earlier one.

mod member_kind;
mod signature;
mod signatures;
mod type_order;

pub use member_kind::MemberKind;
pub use signature::Signature;
pub use signatures::Signatures;
