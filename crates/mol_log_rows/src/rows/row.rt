//! Operations as a line of a log has them: the words of types, values and bodies are not read yet. Of each the parts are
//! those of the operation of its name; a list of words may be absent where there may be no superclass, first value or body.
use mol_base::{Id, List, Stamp, Text};
use mol_values_types::{MethodKind, Notes, Words};

/// A parameter whose type is words.
#[derive(Drop)]
pub struct ParamRow {
    pub id: Id,
    pub name: Text,
    pub ty: List<Text>,
    /// A literal, or `-` and a number.
    pub filler: Text,
}

#[derive(Drop)]
pub struct AddClassRow {
    pub class: Id,
    pub package: Text,
    pub name: Text,
    pub parent: Option<List<Text>>,
    pub words: Words,
    pub notes: Notes,
}

#[derive(Drop)]
pub struct AddFieldRow {
    pub field: Id,
    pub owner: Id,
    pub name: Text,
    pub words: Words,
    pub notes: Notes,
    pub ty: List<Text>,
    pub value: Option<List<Text>>,
}

#[derive(Drop)]
pub struct AddMethodRow {
    pub method: Id,
    pub decl: Id,
    pub owner: Id,
    pub name: Text,
    /// An instance or a static method.
    pub kind: MethodKind,
    pub result: List<Text>,
    /// At most 255.
    pub params: List<ParamRow>,
    pub words: Words,
    pub notes: Notes,
    pub body: Option<List<Text>>,
}

#[derive(Drop)]
pub struct AddOverrideRow {
    pub decl: Id,
    pub method: Id,
    pub owner: Id,
    pub words: Words,
    pub notes: Notes,
    pub body: Option<List<Text>>,
}

#[derive(Drop)]
pub struct AddConstructorRow {
    pub method: Id,
    pub decl: Id,
    pub owner: Id,
    /// At most 255.
    pub params: List<ParamRow>,
    pub words: Words,
    pub notes: Notes,
    pub body: Option<List<Text>>,
}

#[derive(Drop)]
pub struct DeleteRow {
    pub id: Id,
}

#[derive(Drop)]
pub struct SetBodyRow {
    pub decl: Id,
    pub body: Option<List<Text>>,
}

#[derive(Drop)]
pub struct SetValueRow {
    pub field: Id,
    pub ty: List<Text>,
    pub value: Option<List<Text>>,
}

#[derive(Drop)]
pub struct RenameClassRow {
    pub class: Id,
    pub name: Text,
}

#[derive(Drop)]
pub struct RenameMethodRow {
    pub method: Id,
    pub name: Text,
}

#[derive(Drop)]
pub struct MoveClassRow {
    pub class: Id,
    pub package: Text,
}

#[derive(Drop)]
pub struct MoveMethodRow {
    pub decl: Id,
    pub owner: Id,
}

#[derive(Drop)]
pub struct ChangeSignatureRow {
    pub method: Id,
    pub result: List<Text>,
    /// At most 255.
    pub params: List<ParamRow>,
}

/// One of the thirteen operations.
#[derive(Drop)]
pub enum Row {
    AddClass(AddClassRow),
    AddField(AddFieldRow),
    AddMethod(AddMethodRow),
    AddOverride(AddOverrideRow),
    AddConstructor(AddConstructorRow),
    Delete(DeleteRow),
    SetBody(SetBodyRow),
    SetValue(SetValueRow),
    RenameClass(RenameClassRow),
    RenameMethod(RenameMethodRow),
    MoveClass(MoveClassRow),
    MoveMethod(MoveMethodRow),
    ChangeSignature(ChangeSignatureRow),
}

/// A row and the stamp under which it was recorded.
#[derive(Drop)]
pub struct Recorded {
    pub stamp: Stamp,
    pub row: Row,
}
