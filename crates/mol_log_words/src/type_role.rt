//! What a type may be where it stands.

/// Which types may stand at a place.
#[derive(Clone, Copy, Debug, PartialEq, Eq)]
pub enum TypeRole {
    /// The type of a field, a variable or a parameter, and of a cast: any but `void`.
    Value,
    /// The result of a method: any, `void` among them.
    Result,
    /// A superclass: a class of the program, or one outside.
    Super,
    /// What is created by a constructor outside: a class outside.
    Outside,
    /// The items of an array before all its brackets: no array, and not `void`.
    Item,
    /// A whole array type.
    Array,
}
