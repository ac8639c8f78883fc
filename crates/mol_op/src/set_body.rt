//! New bodies.
ghost use Rattle.std.specs.Prelude.{IsTrue};
ghost use Rattle.mol_op.specs.Kept.{set_body_formed};

use crate::conditions::{Want, known_block, need};
use crate::copies::copy_body;
use crate::mentions::{Seen, check_body};
use crate::writes::{rules, set_cell};
use crate::{ApplyFault, OpFault, Operation};
use mol_base::{Id, OutOfMemory, Tag};
use mol_table::Table;
use mol_values_types::{IBody, Value};
use std::alloc::Global;

/// Gives a declaration another body.
#[derive(Drop)]
pub struct SetBody {
    pub decl: Id,
    /// None makes an instance method abstract.
    pub body: Option<IBody>,
    pub ghost formed: { IsTrue (set_body_formed decl body) },
}

impl Operation for SetBody {
    ghost use Rattle.mol_op.specs.Keeping.Kinds.{set_body-keeps};
    ghost use Rattle.mol_op.specs.Laws.{condition-named, condition-grows};
    ghost use Rattle.mol_op.specs.Rows.{set_body_tests, set_body_writes};
    ghost use Rattle.mol_op.specs.Tests.{condition, tests_names};

    ghost fault = { λ op. condition (set_body_tests op) };

    ghost writes = { set_body_writes };

    ghost names = { λ op. tests_names (set_body_tests op) };

    ghost named = { λ op. condition-named (set_body_tests op) };

    ghost grows = { λ op. condition-grows (set_body_tests op) };

    ghost keeps = { set_body-keeps };

    #[tactic(auto, using(crate::proofs::ConditionParts::set_body_parts))]
    fn applies(&self, _tag: Tag, table: &Table) -> Result<(), OpFault> {
        need(table, Want::Decl, &self.decl)?;
        known_block(table, &self.body, &self.decl)?;
        check_body(&Seen::of(table, &self.decl), &self.body)
    }

    fn apply(&self, alloc: Global, tag: Tag, table: &mut Table) -> Result<(), ApplyFault> {
        self.applies(tag, table)?;
        rules(table);
        let body = copy_body(alloc, &self.body)?;
        set_cell(table, &self.decl, Value::Body(body));
        Ok(())
    }
}

impl SetBody {
    ghost use Rattle.std.specs.Prelude.{◌≡◌, IfOk};

    /// An operation that equals this one.
    pub fn copy(&self, alloc: Global) -> Result<SetBody, OutOfMemory>
        ensures { IfOk result (λ copy. copy ≡ self.now) }
    {
        Ok(SetBody {
            decl: self.decl,
            body: copy_body(alloc, &self.body)?,
        })
    }
}
