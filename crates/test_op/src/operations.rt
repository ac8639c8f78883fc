//! Operations by the names of their kinds.
use crate::additions::{add_class, add_constructor, add_field, add_method, add_override};
use crate::changes::{
    change_signature, delete, move_class, move_method, rename_class, rename_method, set_body,
    set_value,
};
use crate::fault::CaseFault;
use crate::line::Line;
use mol_op::Op;
use std::alloc::Global;

/// The kinds of operations.
#[derive(Clone, Copy)]
enum OpKind {
    AddClass,
    AddField,
    AddMethod,
    AddOverride,
    AddConstructor,
    Delete,
    SetBody,
    SetValue,
    RenameClass,
    RenameMethod,
    MoveClass,
    MoveMethod,
    ChangeSignature,
}

impl OpKind {
    /// The kind of this name.
    fn of(word: &str) -> Option<OpKind> {
        match word {
            "add-class" => Some(OpKind::AddClass),
            "add-field" => Some(OpKind::AddField),
            "add-method" => Some(OpKind::AddMethod),
            "add-override" => Some(OpKind::AddOverride),
            "add-constructor" => Some(OpKind::AddConstructor),
            "delete" => Some(OpKind::Delete),
            "set-body" => Some(OpKind::SetBody),
            "set-value" => Some(OpKind::SetValue),
            "rename-class" => Some(OpKind::RenameClass),
            "rename-method" => Some(OpKind::RenameMethod),
            "move-class" => Some(OpKind::MoveClass),
            "move-method" => Some(OpKind::MoveMethod),
            "change-signature" => Some(OpKind::ChangeSignature),
            _ => None,
        }
    }
}

/// The operation of this kind.
fn operation_of(alloc: Global, line: &mut Line<'_>, kind: OpKind) -> Result<Op, CaseFault> {
    match kind {
        OpKind::AddClass => add_class(alloc, line),
        OpKind::AddField => add_field(alloc, line),
        OpKind::AddMethod => add_method(alloc, line),
        OpKind::AddOverride => add_override(alloc, line),
        OpKind::AddConstructor => add_constructor(alloc, line),
        OpKind::Delete => Ok(delete(line)),
        OpKind::SetBody => set_body(alloc, line),
        OpKind::SetValue => set_value(alloc, line),
        OpKind::RenameClass => rename_class(alloc, line),
        OpKind::RenameMethod => rename_method(alloc, line),
        OpKind::MoveClass => move_class(alloc, line),
        OpKind::MoveMethod => Ok(move_method(line)),
        OpKind::ChangeSignature => change_signature(alloc, line),
    }
}

/// The next operation.
pub fn read_operation(alloc: Global, line: &mut Line<'_>) -> Result<Op, CaseFault> {
    match OpKind::of(line.word()) {
        Some(kind) => operation_of(alloc, line, kind),
        None => Err(CaseFault::Unread),
    }
}
