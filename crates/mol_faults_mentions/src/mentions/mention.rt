//! Single mentions.
use mol_base::Id;

/// As what a value names an identity.
#[derive(Clone, Copy, Debug, PartialEq, Eq)]
pub enum Role {
    Class,
    Field,
    /// Any method.
    Method,
    /// A method that is no constructor.
    CalledMethod,
    StaticMethod,
    Constructor,
    /// A parameter in an expression.
    Param,
    /// A parameter of the list of a method.
    ListedParam,
}

/// What is named in a value, and as what.
#[derive(Clone, Copy, Debug, PartialEq, Eq)]
pub struct Mention {
    pub role: Role,
    pub id: Id,
}
