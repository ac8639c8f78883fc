//! Source files, classes and members (JLS 7, 8).
use crate::expr::Expr;
use crate::stmt::Block;
use crate::types::TypeName;
use mol_base::{List, Text};

/// A source file.
#[derive(Drop)]
pub struct Unit {
    /// Comments before `package`.
    pub head: List<Text>,
    /// The name of the package, its parts joined by `.` without spaces.
    pub package: Text,
    /// The full names of the imported types, ascending by bytes.
    pub imports: List<Text>,
    pub class: ClassDecl,
}

/// A class.
#[derive(Drop)]
pub struct ClassDecl {
    /// Comments after `package` and before the first word of the class.
    pub front: List<Text>,
    /// Its modifiers, in the order in which they are printed.
    pub words: List<Text>,
    pub name: Text,
    /// What follows `extends`, which is then `TypeName::Named`.
    pub parent: Option<TypeName>,
    pub members: List<Member>,
    /// Comments before the last brace and after it.
    pub tail: List<Text>,
}

/// A member of a class.
#[derive(Drop)]
pub enum Member {
    Field(Field),
    Method(Method),
    Ctor(Ctor),
}

/// A field. A declaration of several names is as many fields, the comments with the first.
#[derive(Drop)]
pub struct Field {
    pub front: List<Text>,
    /// The offset of the declaration's first token that is no comment, in bytes; for a further name
    /// of one declaration the offset of that name.
    pub at: u32,
    /// Its modifiers, in the order in which they are printed.
    pub words: List<Text>,
    pub ty: TypeName,
    pub name: Text,
    pub init: Option<Expr>,
}

/// A method.
#[derive(Drop)]
pub struct Method {
    pub front: List<Text>,
    /// Where its first token stands in the source, comments left out: in bytes, from 0.
    pub at: u32,
    /// Its modifiers but `static` and `abstract`, in the order in which they are printed;
    /// `@Override` is first.
    pub words: List<Text>,
    pub is_static: bool,
    pub result: TypeName,
    pub name: Text,
    pub params: List<Param>,
    /// None for an abstract method.
    pub block: Option<Block>,
}

/// A constructor. Its name is that of its class.
#[derive(Drop)]
pub struct Ctor {
    pub front: List<Text>,
    /// Where its first token stands in the source, comments left out: in bytes, from 0.
    pub at: u32,
    /// Its modifiers.
    pub words: List<Text>,
    pub params: List<Param>,
    pub block: Block,
}

/// A parameter. `final` before it is not kept.
#[derive(Drop)]
pub struct Param {
    pub ty: TypeName,
    pub name: Text,
}
