//! New types and first values of fields.
ghost use Rattle.std.specs.Prelude.{IsTrue};
ghost use Rattle.mol_op.specs.Kept.{set_value_formed};

use crate::conditions::{Want, need};
use crate::copies::copy_value;
use crate::mentions::{Seen, check_maybe, check_type};
use crate::writes::set_cell;
use crate::{ApplyFault, OpFault, Operation};
use mol_base::{Boxed, Id, OutOfMemory, Tag};
use mol_table::Table;
use mol_values_types::{IExpr, IType, Value};
use std::alloc::Global;

/// Gives a field another type and first value.
#[derive(Drop)]
pub struct SetValue {
    pub field: Id,
    pub ty: IType,
    /// The first value, if there is one.
    pub value: Option<IExpr>,
    pub ghost formed: { IsTrue (set_value_formed ty value) },
}

impl Operation for SetValue {
    ghost use Rattle.mol_op.specs.Keeping.Kinds.{set_value-keeps};
    ghost use Rattle.mol_op.specs.Laws.{condition-named, condition-grows};
    ghost use Rattle.mol_op.specs.Rows.{set_value_tests, set_value_writes};
    ghost use Rattle.mol_op.specs.Tests.{condition, tests_names};

    ghost fault = { λ op. condition (set_value_tests op) };

    ghost writes = { set_value_writes };

    ghost names = { λ op. tests_names (set_value_tests op) };

    ghost named = { λ op. condition-named (set_value_tests op) };

    ghost grows = { λ op. condition-grows (set_value_tests op) };

    ghost keeps = { set_value-keeps };

    #[tactic(auto, using(crate::proofs::ConditionParts::set_value_parts))]
    fn applies(&self, _tag: Tag, table: &Table) -> Result<(), OpFault> {
        need(table, Want::Field, &self.field)?;
        let seen = Seen::of(table, &self.field);
        check_type(&seen, &self.ty)?;
        check_maybe(&seen, &self.value)
    }

    fn apply(&self, alloc: Global, tag: Tag, table: &mut Table) -> Result<(), ApplyFault> {
        self.applies(tag, table)?;
        let ty = self.ty.copy(alloc)?;
        let value = copy_value(alloc, &self.value)?;
        let init = Boxed::new(alloc, value)?;
        set_cell(table, &self.field, Value::Value(ty, init));
        Ok(())
    }
}

impl SetValue {
    ghost use Rattle.std.specs.Prelude.{◌≡◌, IfOk};

    /// An operation that equals this one.
    pub fn copy(&self, alloc: Global) -> Result<SetValue, OutOfMemory>
        ensures { IfOk result (λ copy. copy ≡ self.now) }
    {
        Ok(SetValue {
            field: self.field,
            ty: self.ty.copy(alloc)?,
            value: copy_value(alloc, &self.value)?,
        })
    }
}
