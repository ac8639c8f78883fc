//! Adding a class.
ghost use Rattle.std.specs.Prelude.{IsTrue};
ghost use Rattle.mol_op.specs.Kept.{add_class_formed};

use crate::conditions::fresh;
use crate::copies::copy_parent;
use crate::mentions::{Seen, check_parent};
use crate::writes::rules;
use crate::{ApplyFault, OpFault, Operation};
use mol_base::{Id, List, OutOfMemory, Tag, Text};
use mol_table::Table;
use mol_table_rules::NewEntity;
use mol_values_types::{IType, Kind, Notes, Value, Words};
use std::alloc::Global;

/// Adds a class without members.
#[derive(Drop)]
pub struct AddClass {
    pub class: Id,
    pub package: Text,
    pub name: Text,
    /// The superclass, if one is named.
    pub parent: Option<IType>,
    /// Some of `public`, `abstract` and `final`.
    pub words: Words,
    pub notes: Notes,
    pub ghost formed: { IsTrue (add_class_formed «package» name parent words notes) },
}

impl Operation for AddClass {
    ghost use Rattle.mol_op.specs.Keeping.Kinds.{add_class-keeps};
    ghost use Rattle.mol_op.specs.Laws.{condition-named, condition-grows};
    ghost use Rattle.mol_op.specs.Rows.{add_class_entities, add_class_tests, entities_writes};
    ghost use Rattle.mol_op.specs.Tests.{condition, tests_names};

    ghost fault = { λ op. condition (add_class_tests op) };

    ghost writes = { λ op. entities_writes (add_class_entities op) };

    ghost names = { λ op. tests_names (add_class_tests op) };

    ghost named = { λ op. condition-named (add_class_tests op) };

    ghost grows = { λ op. condition-grows (add_class_tests op) };

    ghost keeps = { add_class-keeps };

    #[tactic(auto, using(crate::proofs::ConditionParts::add_class_parts))]
    fn applies(&self, tag: Tag, table: &Table) -> Result<(), OpFault> {
        fresh(table, &tag, &self.class, false)?;
        check_parent(&Seen::of(table, &self.class), &self.parent)
    }

    fn apply(&self, alloc: Global, tag: Tag, table: &mut Table) -> Result<(), ApplyFault> {
        self.applies(tag, table)?;
        rules(table);
        let entities = self.entities(alloc)?;
        table.add(entities)?;
        Ok(())
    }
}

impl AddClass {
    ghost use Rattle.std.specs.Prelude.{◌≡◌, IfOk};
    ghost use Rattle.mol_op.specs.Rows.{add_class_entities};

    /// What it adds, with all values.
    fn entities(&self, alloc: Global) -> Result<List<NewEntity>, OutOfMemory>
        ensures { IfOk result (λ list. list ≡ add_class_entities self.now) }
    {
        let mut values = List::new(alloc);
        values.add(Value::Live(true))?;
        values.add(Value::Package(self.package.copy(alloc)?))?;
        values.add(Value::Name(self.name.copy(alloc)?))?;
        values.add(Value::Super(copy_parent(alloc, &self.parent)?))?;
        values.add(Value::Words(self.words.copy(alloc)?))?;
        values.add(Value::Notes(self.notes.copy(alloc)?))?;
        let mut entities = List::new(alloc);
        entities.add(NewEntity {
            id: self.class,
            kind: Kind::Class,
            values,
        })?;
        Ok(entities)
    }

    /// An operation that equals this one.
    pub fn copy(&self, alloc: Global) -> Result<AddClass, OutOfMemory>
        ensures { IfOk result (λ copy. copy ≡ self.now) }
    {
        Ok(AddClass {
            class: self.class,
            package: self.package.copy(alloc)?,
            name: self.name.copy(alloc)?,
            parent: copy_parent(alloc, &self.parent)?,
            words: self.words.copy(alloc)?,
            notes: self.notes.copy(alloc)?,
        })
    }
}
