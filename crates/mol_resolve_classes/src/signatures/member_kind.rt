//! The kinds of members.

/// What a member is. Members of different kinds never repeat one another.
#[derive(Clone, Copy, PartialEq, Eq, PartialOrd, Ord)]
pub enum MemberKind {
    Field,
    Method,
    Constructor,
}
