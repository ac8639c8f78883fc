//! Renaming methods.
ghost use Rattle.std.specs.Prelude.{IsTrue};
ghost use Rattle.mol_op.specs.Kept.{rename_method_formed};

use crate::conditions::{Want, need};
use crate::writes::set_cell;
use crate::{ApplyFault, OpFault, Operation};
use mol_base::{Id, OutOfMemory, Tag, Text};
use mol_table::Table;
use mol_values_types::Value;
use std::alloc::Global;

/// Gives a method another name, in all its declarations.
#[derive(Drop)]
pub struct RenameMethod {
    pub method: Id,
    pub name: Text,
    pub ghost formed: { IsTrue (rename_method_formed name) },
}

impl Operation for RenameMethod {
    ghost use Rattle.mol_op.specs.Keeping.Kinds.{rename_method-keeps};
    ghost use Rattle.mol_op.specs.Laws.{condition-named, condition-grows};
    ghost use Rattle.mol_op.specs.Rows.{rename_method_tests, rename_method_writes};
    ghost use Rattle.mol_op.specs.Tests.{condition, tests_names};

    ghost fault = { λ op. condition (rename_method_tests op) };

    ghost writes = { rename_method_writes };

    ghost names = { λ op. tests_names (rename_method_tests op) };

    ghost named = { λ op. condition-named (rename_method_tests op) };

    ghost grows = { λ op. condition-grows (rename_method_tests op) };

    ghost keeps = { rename_method-keeps };

    fn applies(&self, _tag: Tag, table: &Table) -> Result<(), OpFault> {
        need(table, Want::Called, &self.method)
    }

    fn apply(&self, alloc: Global, tag: Tag, table: &mut Table) -> Result<(), ApplyFault> {
        self.applies(tag, table)?;
        let name = self.name.copy(alloc)?;
        set_cell(table, &self.method, Value::Name(name));
        Ok(())
    }
}

impl RenameMethod {
    ghost use Rattle.std.specs.Prelude.{◌≡◌, IfOk};

    /// An operation that equals this one.
    pub fn copy(&self, alloc: Global) -> Result<RenameMethod, OutOfMemory>
        ensures { IfOk result (λ copy. copy ≡ self.now) }
    {
        Ok(RenameMethod {
            method: self.method,
            name: self.name.copy(alloc)?,
        })
    }
}
