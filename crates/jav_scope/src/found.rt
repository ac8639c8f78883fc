//! What look-ups answer.

/// What a look-up comes to: what was found, something outside of the classes of the scope, or nothing.
#[derive(Clone, Copy)]
pub enum Found<T> {
    Found(T),
    Outside,
    NotFound,
}

/// A member of a class: the number of its source file, and its place among the members of the class there.
#[derive(Clone, Copy)]
pub struct MemberRef {
    pub unit: u32,
    pub member: u32,
}

/// What the name of a variable is.
#[derive(Clone, Copy)]
pub enum VarRef {
    /// A local, by its place among those in scope.
    Local(u32),
    /// A parameter, by its place.
    Param(u32),
    /// A field.
    Member(MemberRef),
}

/// What the first of several names with dots between them is.
#[derive(Clone, Copy)]
pub enum Leftmost {
    Var(VarRef),
    /// A class by the number of its file, and the number of names in its shortest spelling, from 1.
    Class(u32, u32),
}
