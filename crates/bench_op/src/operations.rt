//! Operations of all kinds, one for each place of a log.
use crate::additions::{
    add_class, add_constructor, add_field, add_method, add_override, empty_body,
};
use crate::groups::{Added, Group};
use mol_base::{List, OutOfMemory, Tag, Text};
use mol_op::{
    ChangeSignature, Delete, MoveClass, MoveMethod, Op, RenameClass, RenameMethod, SetBody,
    SetValue,
};
use mol_values_types::{IType, MethodKind};
use std::alloc::Global;

/// Names the class `D`.
#[tactic(auto, using(crate::proofs::Names::second_class))]
fn rename_class(alloc: Global, group: Group) -> Result<Op, OutOfMemory> {
    let name = Text::from_str(alloc, "D")?;
    Ok(Op::RenameClass(RenameClass {
        class: group.class,
        name,
    }))
}

/// Names the method `n`.
#[tactic(auto, using(crate::proofs::Names::second_method))]
fn rename_method(alloc: Global, group: Group) -> Result<Op, OutOfMemory> {
    let name = Text::from_str(alloc, "n")?;
    Ok(Op::RenameMethod(RenameMethod {
        method: group.method,
        name,
    }))
}

/// Moves the class to the package `q`.
#[tactic(auto, using(crate::proofs::Names::second_package))]
fn move_class(alloc: Global, group: Group) -> Result<Op, OutOfMemory> {
    let package = Text::from_str(alloc, "q")?;
    Ok(Op::MoveClass(MoveClass {
        class: group.class,
        package,
    }))
}

/// Gives the method the result `int`.
fn change_signature(alloc: Global, group: Group) -> Op {
    Op::ChangeSignature(ChangeSignature {
        method: group.method,
        result: IType::Int,
        params: List::new(alloc),
    })
}

/// Gives the declaration the body `{}`.
fn set_body(alloc: Global, group: Group) -> Op {
    Op::SetBody(SetBody {
        decl: group.decl,
        body: Some(empty_body(alloc)),
    })
}

/// Moves the declaration to the class that it is in already, which writes the cell all the same.
fn move_method(group: Group) -> Op {
    Op::MoveMethod(MoveMethod {
        decl: group.decl,
        owner: group.class,
    })
}

/// Gives the field the type `long` and no first value.
fn set_value(group: Group) -> Op {
    Op::SetValue(SetValue {
        field: group.field,
        ty: IType::Long,
        value: None,
    })
}

/// How many kinds there are.
const KINDS: u32 = 13;

/// How many of them change what is there.
const CHANGES: u32 = 7;

/// An operation that changes one of a group.
fn change_of(alloc: Global, kind: u32, group: Group) -> Result<Op, OutOfMemory> {
    match kind {
        0 => rename_class(alloc, group),
        1 => rename_method(alloc, group),
        2 => move_class(alloc, group),
        3 => Ok(move_method(group)),
        4 => Ok(change_signature(alloc, group)),
        5 => Ok(set_body(alloc, group)),
        _ => Ok(set_value(group)),
    }
}

/// An operation that adds to a group, or that deletes the declaration of it.
fn addition_of(alloc: Global, kind: u32, group: Group, added: &Added) -> Result<Op, OutOfMemory> {
    match kind {
        0 => add_class(alloc, added.class),
        1 => add_field(alloc, added.field, group.class),
        2 => add_instance_method(alloc, group, added),
        3 => Ok(add_override(alloc, added.override_decl, added.method, added.class)),
        4 => Ok(add_constructor(
            alloc,
            added.constructor,
            added.constructor_decl,
            group.class,
        )),
        _ => Ok(Op::Delete(Delete { id: group.decl })),
    }
}

/// Adds a method of instances to the class.
fn add_instance_method(alloc: Global, group: Group, added: &Added) -> Result<Op, OutOfMemory> {
    add_method(
        alloc,
        added.method,
        added.decl,
        group.class,
        MethodKind::Instance,
    )
}

/// The operation at a place of a log of this tag: a round has one of each kind, and each round works on the group after
/// that of the last one. What it adds is numbered from 1 on.
pub fn operation_at(alloc: Global, tag: Tag, place: u32, groups: u32) -> Result<Op, OutOfMemory> {
    let round = place / KINDS;
    let group = Group::at(round.checked_rem(groups).unwrap_or(0));
    match (place % KINDS).checked_sub(CHANGES) {
        None => change_of(alloc, place % KINDS, group),
        Some(kind) => addition_of(alloc, kind, group, &Added::of(tag, round)),
    }
}
