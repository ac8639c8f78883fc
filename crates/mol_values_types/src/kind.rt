//! Kinds of what has an identity, and kinds of methods.

/// What an identity names. A parameter has an identity and is no entity.
#[derive(Clone, Copy, Debug, PartialEq, Eq)]
pub enum Kind {
    Class,
    /// What all declarations of one method share, in a class and the classes below it.
    Method,
    /// A declaration of a method in one class.
    Decl,
    Field,
    Param,
}

/// How a method is called. It is fixed when the method is added.
#[derive(Clone, Copy, Debug, PartialEq, Eq)]
pub enum MethodKind {
    Instance,
    Static,
    Constructor,
}
