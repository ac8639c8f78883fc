//! Adding a declaration of a known method.
ghost use Rattle.std.specs.Prelude.{IsTrue};
ghost use Rattle.mol_op.specs.Kept.{add_override_formed};

use crate::conditions::{Want, fresh, need};
use crate::copies::copy_body;
use crate::mentions::{Seen, check_body};
use crate::writes::{decl_entity, rules};
use crate::{ApplyFault, OpFault, Operation};
use mol_base::{Id, List, OutOfMemory, Tag};
use mol_table::Table;
use mol_table_rules::NewEntity;
use mol_values_types::{IBody, Known, Notes, Words};
use std::alloc::Global;

/// Adds a declaration of an instance method that is known.
#[derive(Drop)]
pub struct AddOverride {
    pub decl: Id,
    pub method: Id,
    /// The class of the declaration.
    pub owner: Id,
    /// Its modifiers without `abstract`, which the body says.
    pub words: Words,
    pub notes: Notes,
    /// None for an abstract method.
    pub body: Option<IBody>,
    pub ghost formed: { IsTrue (add_override_formed method words notes body) },
}

impl Operation for AddOverride {
    ghost use Rattle.mol_op.specs.Keeping.Kinds.{add_override-keeps};
    ghost use Rattle.mol_op.specs.Laws.{condition-named, condition-grows};
    ghost use Rattle.mol_op.specs.Rows.{add_override_entities, add_override_tests, entities_writes};
    ghost use Rattle.mol_op.specs.Tests.{condition, tests_names};

    ghost fault = { λ op. condition (add_override_tests op) };

    ghost writes = { λ op. entities_writes (add_override_entities op) };

    ghost names = { λ op. tests_names (add_override_tests op) };

    ghost named = { λ op. condition-named (add_override_tests op) };

    ghost grows = { λ op. condition-grows (add_override_tests op) };

    ghost keeps = { add_override-keeps };

    #[tactic(auto, using(crate::proofs::ConditionParts::add_override_parts))]
    fn applies(&self, tag: Tag, table: &Table) -> Result<(), OpFault> {
        fresh(table, &tag, &self.decl, false)?;
        need(table, Want::Overridden, &self.method)?;
        need(table, Want::Class, &self.owner)?;
        let entities = [(self.decl, Known::Decl(self.method))];
        let seen = Seen {
            table,
            entities: &entities,
            method: self.method,
            params: &[],
        };
        check_body(&seen, &self.body)
    }

    fn apply(&self, alloc: Global, tag: Tag, table: &mut Table) -> Result<(), ApplyFault> {
        self.applies(tag, table)?;
        rules(table);
        let entities = self.entities(alloc)?;
        table.add(entities)?;
        Ok(())
    }
}

impl AddOverride {
    ghost use Rattle.std.specs.Prelude.{◌≡◌, IfOk};
    ghost use Rattle.mol_op.specs.Rows.{add_override_entities};

    /// What it adds, with all values.
    fn entities(&self, alloc: Global) -> Result<List<NewEntity>, OutOfMemory>
        ensures { IfOk result (λ list. list ≡ add_override_entities self.now) }
    {
        let decl = decl_entity(
            alloc,
            &self.decl,
            &self.owner,
            &self.method,
            &self.words,
            &self.notes,
            &self.body,
        )?;
        let mut entities = List::new(alloc);
        entities.add(decl)?;
        Ok(entities)
    }

    /// An operation that equals this one.
    pub fn copy(&self, alloc: Global) -> Result<AddOverride, OutOfMemory>
        ensures { IfOk result (λ copy. copy ≡ self.now) }
    {
        Ok(AddOverride {
            decl: self.decl,
            method: self.method,
            owner: self.owner,
            words: self.words.copy(alloc)?,
            notes: self.notes.copy(alloc)?,
            body: copy_body(alloc, &self.body)?,
        })
    }
}
