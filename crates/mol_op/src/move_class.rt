//! Moving classes.
ghost use Rattle.std.specs.Prelude.{IsTrue};
ghost use Rattle.mol_op.specs.Kept.{move_class_formed};

use crate::conditions::{Want, need};
use crate::writes::set_cell;
use crate::{ApplyFault, OpFault, Operation};
use mol_base::{Id, OutOfMemory, Tag, Text};
use mol_table::Table;
use mol_values_types::Value;
use std::alloc::Global;

/// Moves a class to another package.
#[derive(Drop)]
pub struct MoveClass {
    pub class: Id,
    pub package: Text,
    pub ghost formed: { IsTrue (move_class_formed «package») },
}

impl Operation for MoveClass {
    ghost use Rattle.mol_op.specs.Keeping.Kinds.{move_class-keeps};
    ghost use Rattle.mol_op.specs.Laws.{condition-named, condition-grows};
    ghost use Rattle.mol_op.specs.Rows.{move_class_tests, move_class_writes};
    ghost use Rattle.mol_op.specs.Tests.{condition, tests_names};

    ghost fault = { λ op. condition (move_class_tests op) };

    ghost writes = { move_class_writes };

    ghost names = { λ op. tests_names (move_class_tests op) };

    ghost named = { λ op. condition-named (move_class_tests op) };

    ghost grows = { λ op. condition-grows (move_class_tests op) };

    ghost keeps = { move_class-keeps };

    fn applies(&self, _tag: Tag, table: &Table) -> Result<(), OpFault> {
        need(table, Want::Class, &self.class)
    }

    fn apply(&self, alloc: Global, tag: Tag, table: &mut Table) -> Result<(), ApplyFault> {
        self.applies(tag, table)?;
        let package = self.package.copy(alloc)?;
        set_cell(table, &self.class, Value::Package(package));
        Ok(())
    }
}

impl MoveClass {
    ghost use Rattle.std.specs.Prelude.{◌≡◌, IfOk};

    /// An operation that equals this one.
    pub fn copy(&self, alloc: Global) -> Result<MoveClass, OutOfMemory>
        ensures { IfOk result (λ copy. copy ≡ self.now) }
    {
        Ok(MoveClass {
            class: self.class,
            package: self.package.copy(alloc)?,
        })
    }
}
