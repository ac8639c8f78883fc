//! Adding a field.
ghost use Rattle.std.specs.Prelude.{IsTrue};
ghost use Rattle.mol_op.specs.Kept.{add_field_formed};

use crate::conditions::{Want, fresh, need};
use crate::copies::copy_value;
use crate::mentions::{Seen, check_maybe, check_type};
use crate::writes::rules;
use crate::{ApplyFault, OpFault, Operation};
use mol_base::{Boxed, Id, List, OutOfMemory, Tag, Text};
use mol_table::Table;
use mol_table_rules::NewEntity;
use mol_values_types::{IExpr, IType, Kind, Known, Notes, Value, Words};
use std::alloc::Global;

/// Adds a field to a class.
#[derive(Drop)]
pub struct AddField {
    pub field: Id,
    /// The class.
    pub owner: Id,
    pub name: Text,
    /// Its modifiers, at most one of them for access.
    pub words: Words,
    pub notes: Notes,
    pub ty: IType,
    /// The first value, if there is one.
    pub value: Option<IExpr>,
    pub ghost formed: { IsTrue (add_field_formed name words notes ty value) },
}

impl Operation for AddField {
    ghost use Rattle.mol_op.specs.Keeping.Kinds.{add_field-keeps};
    ghost use Rattle.mol_op.specs.Laws.{condition-named, condition-grows};
    ghost use Rattle.mol_op.specs.Rows.{add_field_entities, add_field_tests, entities_writes};
    ghost use Rattle.mol_op.specs.Tests.{condition, tests_names};

    ghost fault = { λ op. condition (add_field_tests op) };

    ghost writes = { λ op. entities_writes (add_field_entities op) };

    ghost names = { λ op. tests_names (add_field_tests op) };

    ghost named = { λ op. condition-named (add_field_tests op) };

    ghost grows = { λ op. condition-grows (add_field_tests op) };

    ghost keeps = { add_field-keeps };

    #[tactic(auto, using(crate::proofs::ConditionParts::add_field_parts))]
    fn applies(&self, tag: Tag, table: &Table) -> Result<(), OpFault> {
        fresh(table, &tag, &self.field, false)?;
        need(table, Want::Class, &self.owner)?;
        check_type(&Seen::of(table, &self.field), &self.ty)?;
        let entities = [(self.field, Known::Field)];
        let seen = Seen {
            table,
            entities: &entities,
            method: self.field,
            params: &[],
        };
        check_maybe(&seen, &self.value)
    }

    fn apply(&self, alloc: Global, tag: Tag, table: &mut Table) -> Result<(), ApplyFault> {
        self.applies(tag, table)?;
        rules(table);
        let entities = self.entities(alloc)?;
        table.add(entities)?;
        Ok(())
    }
}

impl AddField {
    ghost use Rattle.std.specs.Prelude.{◌≡◌, IfOk};
    ghost use Rattle.mol_op.specs.Rows.{add_field_entities};

    /// What it adds, with all values.
    fn entities(&self, alloc: Global) -> Result<List<NewEntity>, OutOfMemory>
        ensures { IfOk result (λ list. list ≡ add_field_entities self.now) }
    {
        let mut values = List::new(alloc);
        values.add(Value::Live(true))?;
        values.add(Value::Owner(self.owner))?;
        values.add(Value::Name(self.name.copy(alloc)?))?;
        values.add(Value::Words(self.words.copy(alloc)?))?;
        values.add(Value::Notes(self.notes.copy(alloc)?))?;
        let ty = self.ty.copy(alloc)?;
        let value = Boxed::new(alloc, copy_value(alloc, &self.value)?)?;
        values.add(Value::Value(ty, value))?;
        let mut entities = List::new(alloc);
        entities.add(NewEntity {
            id: self.field,
            kind: Kind::Field,
            values,
        })?;
        Ok(entities)
    }

    /// An operation that equals this one.
    pub fn copy(&self, alloc: Global) -> Result<AddField, OutOfMemory>
        ensures { IfOk result (λ copy. copy ≡ self.now) }
    {
        Ok(AddField {
            field: self.field,
            owner: self.owner,
            name: self.name.copy(alloc)?,
            words: self.words.copy(alloc)?,
            notes: self.notes.copy(alloc)?,
            ty: self.ty.copy(alloc)?,
            value: copy_value(alloc, &self.value)?,
        })
    }
}
