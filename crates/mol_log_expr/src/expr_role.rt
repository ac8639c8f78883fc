//! What an expression may be where it stands.

/// Which expressions may stand at a place.
#[derive(Clone, Copy, Debug, PartialEq, Eq)]
pub enum ExprRole {
    /// Any but items in braces.
    Value,
    /// The first value of a variable or a field, or an item in braces: any.
    First,
    /// What is left of an assignment, or stepped by `++` or `--`: a variable, a field or an item.
    Target,
    /// A statement: an assignment, `++` or `--`, a call, or a creation that is no array's.
    Statement,
}
