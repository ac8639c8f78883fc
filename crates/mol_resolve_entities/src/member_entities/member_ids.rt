//! Identities of members.
use mol_base::Id;

/// The identities of a field or declaration, and of its class.
#[derive(Clone, Copy)]
pub struct MemberIds {
    pub id: Id,
    pub owner: Id,
}

/// The identities of the method of a declaration.
#[derive(Drop)]
pub struct MethodIds {
    pub id: Id,
    /// Those of its parameters, in their order.
    pub params: Vec<Id>,
    /// Whether the declaration is the topmost one of the method.
    pub is_top: bool,
}
