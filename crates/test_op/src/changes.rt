//! Operations that change what is there.
use crate::bodies::read_body;
use crate::exprs::{FieldValue, read_field_value};
use crate::fault::CaseFault;
use crate::line::Line;
use crate::params::{Signature, read_signature};
use crate::texts::{dotted_of, name_of};
use mol_op::{
    ChangeSignature, Delete, MoveClass, MoveMethod, Op, RenameClass, RenameMethod, SetBody,
    SetValue,
};
use std::alloc::Global;

/// What is deleted.
pub fn delete(line: &mut Line<'_>) -> Op {
    let id = line.id();
    Op::Delete(Delete { id })
}

/// The declaration and its body.
pub fn set_body(alloc: Global, line: &mut Line<'_>) -> Result<Op, CaseFault> {
    let decl = line.id();
    let body = read_body(alloc, line)?;
    Ok(Op::SetBody(SetBody { decl, body }))
}

/// The field, its type and its first value.
pub fn set_value(alloc: Global, line: &mut Line<'_>) -> Result<Op, CaseFault> {
    let field = line.id();
    let FieldValue { ty, value } = read_field_value(alloc, line)?;
    Ok(Op::SetValue(SetValue { field, ty, value }))
}

/// The class and its name.
pub fn rename_class(alloc: Global, line: &mut Line<'_>) -> Result<Op, CaseFault> {
    let class = line.id();
    let name = name_of(alloc, line.word())?;
    Ok(Op::RenameClass(RenameClass { class, name }))
}

/// The method and its name.
pub fn rename_method(alloc: Global, line: &mut Line<'_>) -> Result<Op, CaseFault> {
    let method = line.id();
    let name = name_of(alloc, line.word())?;
    Ok(Op::RenameMethod(RenameMethod { method, name }))
}

/// The class and its package.
pub fn move_class(alloc: Global, line: &mut Line<'_>) -> Result<Op, CaseFault> {
    let class = line.id();
    let package = dotted_of(alloc, line.word())?;
    Ok(Op::MoveClass(MoveClass { class, package }))
}

/// The declaration and its class.
pub fn move_method(line: &mut Line<'_>) -> Op {
    let decl = line.id();
    let owner = line.id();
    Op::MoveMethod(MoveMethod { decl, owner })
}

/// The method, its result and its parameters.
pub fn change_signature(alloc: Global, line: &mut Line<'_>) -> Result<Op, CaseFault> {
    let method = line.id();
    let Signature { result, params } = read_signature(alloc, line)?;
    Ok(Op::ChangeSignature(ChangeSignature {
        method,
        result,
        params,
    }))
}
