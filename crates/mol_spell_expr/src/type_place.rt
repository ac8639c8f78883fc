//! Where types are written.

/// Where a type is written.
#[derive(Clone, Copy)]
pub enum TypePlace {
    /// In a declaration or after `extends`, where nothing but a type can stand.
    Declaration,
    /// In an expression, where a variable goes before a class of its name (JLS 6.4.2).
    Expression,
}
