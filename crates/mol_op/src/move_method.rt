//! Moving static methods.
use crate::conditions::{Want, declared, need};
use crate::writes::set_cell;
use crate::{ApplyFault, OpFault, Operation};
use mol_base::{Id, OutOfMemory, Tag};
use mol_table::Table;
use mol_values_types::{MethodKind, Value};
use std::alloc::Global;

/// Moves the declaration of a static method to another class.
#[derive(Drop)]
pub struct MoveMethod {
    pub decl: Id,
    /// The class to which it moves.
    pub owner: Id,
}

impl Operation for MoveMethod {
    ghost use Rattle.mol_op.specs.Keeping.Kinds.{move_method-keeps};
    ghost use Rattle.mol_op.specs.Laws.{condition-named, condition-grows};
    ghost use Rattle.mol_op.specs.Rows.{move_method_tests, move_method_writes};
    ghost use Rattle.mol_op.specs.Tests.{condition, tests_names};

    ghost fault = { λ op. condition (move_method_tests op) };

    ghost writes = { move_method_writes };

    ghost names = { λ op. tests_names (move_method_tests op) };

    ghost named = { λ op. condition-named (move_method_tests op) };

    ghost grows = { λ op. condition-grows (move_method_tests op) };

    ghost keeps = { move_method-keeps };

    fn applies(&self, _tag: Tag, table: &Table) -> Result<(), OpFault> {
        need(table, Want::Decl, &self.decl)?;
        declared(
            table,
            MethodKind::Static,
            OpFault::NotStatic(self.decl),
            &self.decl,
        )?;
        need(table, Want::Class, &self.owner)
    }

    fn apply(&self, _alloc: Global, tag: Tag, table: &mut Table) -> Result<(), ApplyFault> {
        self.applies(tag, table)?;
        set_cell(table, &self.decl, Value::Owner(self.owner));
        Ok(())
    }
}

impl MoveMethod {
    ghost use Rattle.std.specs.Prelude.{◌≡◌, IfOk};

    /// An operation that equals this one.
    pub fn copy(&self, _alloc: Global) -> Result<MoveMethod, OutOfMemory>
        ensures { IfOk result (λ copy. copy ≡ self.now) }
    {
        Ok(MoveMethod {
            decl: self.decl,
            owner: self.owner,
        })
    }
}
