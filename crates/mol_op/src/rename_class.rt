//! Renaming classes.
ghost use Rattle.std.specs.Prelude.{IsTrue};
ghost use Rattle.mol_op.specs.Kept.{rename_class_formed};

use crate::conditions::{Want, need};
use crate::writes::set_cell;
use crate::{ApplyFault, OpFault, Operation};
use mol_base::{Id, OutOfMemory, Tag, Text};
use mol_table::Table;
use mol_values_types::Value;
use std::alloc::Global;

/// Gives a class another name.
#[derive(Drop)]
pub struct RenameClass {
    pub class: Id,
    pub name: Text,
    pub ghost formed: { IsTrue (rename_class_formed name) },
}

impl Operation for RenameClass {
    ghost use Rattle.mol_op.specs.Keeping.Kinds.{rename_class-keeps};
    ghost use Rattle.mol_op.specs.Laws.{condition-named, condition-grows};
    ghost use Rattle.mol_op.specs.Rows.{rename_class_tests, rename_class_writes};
    ghost use Rattle.mol_op.specs.Tests.{condition, tests_names};

    ghost fault = { λ op. condition (rename_class_tests op) };

    ghost writes = { rename_class_writes };

    ghost names = { λ op. tests_names (rename_class_tests op) };

    ghost named = { λ op. condition-named (rename_class_tests op) };

    ghost grows = { λ op. condition-grows (rename_class_tests op) };

    ghost keeps = { rename_class-keeps };

    fn applies(&self, _tag: Tag, table: &Table) -> Result<(), OpFault> {
        need(table, Want::Class, &self.class)
    }

    fn apply(&self, alloc: Global, tag: Tag, table: &mut Table) -> Result<(), ApplyFault> {
        self.applies(tag, table)?;
        let name = self.name.copy(alloc)?;
        set_cell(table, &self.class, Value::Name(name));
        Ok(())
    }
}

impl RenameClass {
    ghost use Rattle.std.specs.Prelude.{◌≡◌, IfOk};

    /// An operation that equals this one.
    pub fn copy(&self, alloc: Global) -> Result<RenameClass, OutOfMemory>
        ensures { IfOk result (λ copy. copy ≡ self.now) }
    {
        Ok(RenameClass {
            class: self.class,
            name: self.name.copy(alloc)?,
        })
    }
}
