//! Members that were found.
use jav_names::SeenType;
use jav_scope::MemberRef;
use mol_base::Id;

/// A field.
#[derive(Clone, Copy)]
pub struct FoundField<'a> {
    pub id: Id,
    pub ty: &'a SeenType,
    pub is_static: bool,
}

/// A method, or a declared constructor, by the declaration that was found.
#[derive(Clone, Copy)]
pub struct FoundMethod<'a> {
    pub at: MemberRef,
    /// How many arguments it takes.
    pub arity: u32,
    /// The identity of the method, not of this declaration of it.
    pub id: Id,
    /// The type that it gives; `void` of a constructor.
    pub result: &'a SeenType,
    pub is_static: bool,
}

/// A constructor.
#[derive(Clone, Copy)]
pub enum FoundConstructor<'a> {
    Declared(FoundMethod<'a>),
    /// The default constructor of the class of this identity (JLS 8.8.9).
    Default(Id),
}
