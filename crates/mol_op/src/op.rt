//! All kinds of operations as one type.
use crate::{
    AddClass, AddConstructor, AddField, AddMethod, AddOverride, ApplyFault, ChangeSignature,
    Delete, MoveClass, MoveMethod, OpFault, Operation, RenameClass, RenameMethod, SetBody,
    SetValue,
};
use mol_base::{OutOfMemory, Tag};
use mol_table::Table;
use std::alloc::Global;

/// An operation of any kind.
#[derive(Drop)]
pub enum Op {
    AddClass(AddClass),
    AddField(AddField),
    AddMethod(AddMethod),
    AddOverride(AddOverride),
    AddConstructor(AddConstructor),
    Delete(Delete),
    SetBody(SetBody),
    SetValue(SetValue),
    RenameClass(RenameClass),
    RenameMethod(RenameMethod),
    MoveClass(MoveClass),
    MoveMethod(MoveMethod),
    ChangeSignature(ChangeSignature),
}

impl Operation for Op {
    ghost use Rattle.mol_op.specs.Keeping.Kinds.{op-keeps};
    ghost use Rattle.mol_op.specs.Laws.{condition-named, condition-grows};
    ghost use Rattle.mol_op.specs.Rows.{op_tests, op_writes};
    ghost use Rattle.mol_op.specs.Tests.{condition, tests_names};

    ghost fault = { λ op. condition (op_tests op) };

    ghost writes = { op_writes };

    ghost names = { λ op. tests_names (op_tests op) };

    ghost named = { λ op. condition-named (op_tests op) };

    ghost grows = { λ op. condition-grows (op_tests op) };

    ghost keeps = { op-keeps };

    fn applies(&self, tag: Tag, table: &Table) -> Result<(), OpFault> {
        match self {
            Op::AddClass(op) => op.applies(tag, table),
            Op::AddField(op) => op.applies(tag, table),
            Op::AddMethod(op) => op.applies(tag, table),
            Op::AddOverride(op) => op.applies(tag, table),
            Op::AddConstructor(op) => op.applies(tag, table),
            Op::Delete(op) => op.applies(tag, table),
            Op::SetBody(op) => op.applies(tag, table),
            Op::SetValue(op) => op.applies(tag, table),
            Op::RenameClass(op) => op.applies(tag, table),
            Op::RenameMethod(op) => op.applies(tag, table),
            Op::MoveClass(op) => op.applies(tag, table),
            Op::MoveMethod(op) => op.applies(tag, table),
            Op::ChangeSignature(op) => op.applies(tag, table),
        }
    }

    fn apply(&self, alloc: Global, tag: Tag, table: &mut Table) -> Result<(), ApplyFault> {
        match self {
            Op::AddClass(op) => op.apply(alloc, tag, table),
            Op::AddField(op) => op.apply(alloc, tag, table),
            Op::AddMethod(op) => op.apply(alloc, tag, table),
            Op::AddOverride(op) => op.apply(alloc, tag, table),
            Op::AddConstructor(op) => op.apply(alloc, tag, table),
            Op::Delete(op) => op.apply(alloc, tag, table),
            Op::SetBody(op) => op.apply(alloc, tag, table),
            Op::SetValue(op) => op.apply(alloc, tag, table),
            Op::RenameClass(op) => op.apply(alloc, tag, table),
            Op::RenameMethod(op) => op.apply(alloc, tag, table),
            Op::MoveClass(op) => op.apply(alloc, tag, table),
            Op::MoveMethod(op) => op.apply(alloc, tag, table),
            Op::ChangeSignature(op) => op.apply(alloc, tag, table),
        }
    }
}

impl Op {
    ghost use Rattle.std.specs.Prelude.{◌≡◌, IfOk};

    /// An operation that equals this one.
    pub fn copy(&self, alloc: Global) -> Result<Op, OutOfMemory>
        ensures { IfOk result (λ copy. copy ≡ self.now) }
    {
        match self {
            Op::AddClass(op) => match op.copy(alloc) {
                Ok(op) => Ok(Op::AddClass(op)),
                Err(want) => Err(want),
            },
            Op::AddField(op) => match op.copy(alloc) {
                Ok(op) => Ok(Op::AddField(op)),
                Err(want) => Err(want),
            },
            Op::AddMethod(op) => match op.copy(alloc) {
                Ok(op) => Ok(Op::AddMethod(op)),
                Err(want) => Err(want),
            },
            Op::AddOverride(op) => match op.copy(alloc) {
                Ok(op) => Ok(Op::AddOverride(op)),
                Err(want) => Err(want),
            },
            Op::AddConstructor(op) => match op.copy(alloc) {
                Ok(op) => Ok(Op::AddConstructor(op)),
                Err(want) => Err(want),
            },
            Op::Delete(op) => match op.copy(alloc) {
                Ok(op) => Ok(Op::Delete(op)),
                Err(want) => Err(want),
            },
            Op::SetBody(op) => match op.copy(alloc) {
                Ok(op) => Ok(Op::SetBody(op)),
                Err(want) => Err(want),
            },
            Op::SetValue(op) => match op.copy(alloc) {
                Ok(op) => Ok(Op::SetValue(op)),
                Err(want) => Err(want),
            },
            Op::RenameClass(op) => match op.copy(alloc) {
                Ok(op) => Ok(Op::RenameClass(op)),
                Err(want) => Err(want),
            },
            Op::RenameMethod(op) => match op.copy(alloc) {
                Ok(op) => Ok(Op::RenameMethod(op)),
                Err(want) => Err(want),
            },
            Op::MoveClass(op) => match op.copy(alloc) {
                Ok(op) => Ok(Op::MoveClass(op)),
                Err(want) => Err(want),
            },
            Op::MoveMethod(op) => match op.copy(alloc) {
                Ok(op) => Ok(Op::MoveMethod(op)),
                Err(want) => Err(want),
            },
            Op::ChangeSignature(op) => match op.copy(alloc) {
                Ok(op) => Ok(Op::ChangeSignature(op)),
                Err(want) => Err(want),
            },
        }
    }
}
