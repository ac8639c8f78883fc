//! Changing signatures.
ghost use Rattle.std.specs.Prelude.{IsTrue};
ghost use Rattle.mol_op.specs.Kept.{change_signature_formed};

use crate::conditions::{Want, need};
use crate::copies::copy_params;
use crate::mentions::{Seen, check_type};
use crate::params::known_params;
use crate::writes::{rules, set_cell};
use crate::{ApplyFault, OpFault, Operation};
use mol_base::{Id, List, OutOfMemory, Tag};
use mol_table::Table;
use mol_values_types::{Cell, IType, Param, Slot, Value};
use std::alloc::Global;

/// Gives a method another result and other parameters. Those that are not known become known.
#[derive(Drop)]
pub struct ChangeSignature {
    pub method: Id,
    pub result: IType,
    /// At most 255.
    pub params: List<Param>,
    pub ghost formed: { IsTrue (change_signature_formed result params) },
}

impl Operation for ChangeSignature {
    ghost use Rattle.mol_op.specs.Keeping.Kinds.{change_signature-keeps};
    ghost use Rattle.mol_op.specs.Laws.{condition-named, condition-grows};
    ghost use Rattle.mol_op.specs.Rows.{change_signature_tests, change_signature_writes};
    ghost use Rattle.mol_op.specs.Tests.{condition, tests_names};

    ghost fault = { λ op. condition (change_signature_tests op) };

    ghost writes = { change_signature_writes };

    ghost names = { λ op. tests_names (change_signature_tests op) };

    ghost named = { λ op. condition-named (change_signature_tests op) };

    ghost grows = { λ op. condition-grows (change_signature_tests op) };

    ghost keeps = { change_signature-keeps };

    #[tactic(auto, using(crate::proofs::ConditionParts::change_signature_parts))]
    fn applies(&self, tag: Tag, table: &Table) -> Result<(), OpFault> {
        need(table, self.want(), &self.method)?;
        check_type(&Seen::of(table, &self.method), &self.result)?;
        known_params(table, &tag, &self.method, self.params.items())
    }

    fn apply(&self, alloc: Global, tag: Tag, table: &mut Table) -> Result<(), ApplyFault> {
        self.applies(tag, table)?;
        rules(table);
        let gives = self.result.copy(alloc)?;
        let params = copy_params(alloc, self.params.items())?;
        let cell = Cell {
            id: self.method,
            slot: Slot::Params,
        };
        table.set(cell, Value::Params(params))?;
        set_cell(table, &self.method, Value::Result(gives));
        Ok(())
    }
}

impl ChangeSignature {
    ghost use Rattle.std.specs.Prelude.{◌≡◌, if◌then◌else◌, IfOk};
    ghost use Rattle.mol_table_rules.specs.TypeForms.{is_void};
    ghost use Rattle.mol_op.specs.declared.conditions.Want.TheVariants.{Method, Called};

    /// What the method has to be. The result of a constructor stays `void`.
    fn want(&self) -> Want
        ensures { result ≡ (if is_void self.now.result then Method else Called) }
    {
        match self.result {
            IType::Void => Want::Method,
            _ => Want::Called,
        }
    }

    /// An operation that equals this one.
    pub fn copy(&self, alloc: Global) -> Result<ChangeSignature, OutOfMemory>
        ensures { IfOk result (λ copy. copy ≡ self.now) }
    {
        Ok(ChangeSignature {
            method: self.method,
            result: self.result.copy(alloc)?,
            params: copy_params(alloc, self.params.items())?,
        })
    }
}
