//! Deleting.
use crate::conditions::{Want, need};
use crate::writes::set_cell;
use crate::{ApplyFault, OpFault, Operation};
use mol_base::{Id, OutOfMemory, Tag};
use mol_table::Table;
use mol_values_types::Value;
use std::alloc::Global;

/// Ends the life of a class, a declaration or a field. Its cells stay.
#[derive(Drop)]
pub struct Delete {
    pub id: Id,
}

impl Operation for Delete {
    ghost use Rattle.mol_op.specs.Keeping.Kinds.{delete-keeps};
    ghost use Rattle.mol_op.specs.Laws.{condition-named, condition-grows};
    ghost use Rattle.mol_op.specs.Rows.{delete_tests, delete_writes};
    ghost use Rattle.mol_op.specs.Tests.{condition, tests_names};

    ghost fault = { λ op. condition (delete_tests op) };

    ghost writes = { delete_writes };

    ghost names = { λ op. tests_names (delete_tests op) };

    ghost named = { λ op. condition-named (delete_tests op) };

    ghost grows = { λ op. condition-grows (delete_tests op) };

    ghost keeps = { delete-keeps };

    fn applies(&self, _tag: Tag, table: &Table) -> Result<(), OpFault> {
        need(table, Want::Deleted, &self.id)
    }

    fn apply(&self, _alloc: Global, tag: Tag, table: &mut Table) -> Result<(), ApplyFault> {
        self.applies(tag, table)?;
        set_cell(table, &self.id, Value::Live(false));
        Ok(())
    }
}

impl Delete {
    ghost use Rattle.std.specs.Prelude.{◌≡◌, IfOk};

    /// An operation that equals this one.
    pub fn copy(&self, _alloc: Global) -> Result<Delete, OutOfMemory>
        ensures { IfOk result (λ copy. copy ≡ self.now) }
    {
        Ok(Delete { id: self.id })
    }
}
