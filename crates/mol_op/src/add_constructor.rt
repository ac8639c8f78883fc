//! Adding a constructor.
ghost use Rattle.std.specs.Prelude.{IsTrue};
ghost use Rattle.mol_op.specs.Kept.{add_constructor_formed};

use crate::conditions::{Want, fresh, need};
use crate::copies::{copy_body, copy_params};
use crate::new_method::check_new_method;
use crate::writes::{decl_entity, method_entity, rules};
use crate::{ApplyFault, OpFault, Operation};
use mol_base::{Id, List, OutOfMemory, Tag, Text};
use mol_table::Table;
use mol_table_rules::NewEntity;
use mol_values_types::{IBody, IType, MethodKind, Notes, Param, Words};
use std::alloc::Global;

/// Adds a constructor of a class, with its one declaration.
#[derive(Drop)]
pub struct AddConstructor {
    pub method: Id,
    pub decl: Id,
    /// The class.
    pub owner: Id,
    /// At most 255.
    pub params: List<Param>,
    /// One of `public`, `protected` and `private`, or none.
    pub words: Words,
    pub notes: Notes,
    /// An operation without one is refused.
    pub body: Option<IBody>,
    pub ghost formed: { IsTrue (add_constructor_formed method params words notes body) },
}

impl Operation for AddConstructor {
    ghost use Rattle.mol_op.specs.Keeping.Kinds.{add_constructor-keeps};
    ghost use Rattle.mol_op.specs.Laws.{condition-named, condition-grows};
    ghost use Rattle.mol_op.specs.Rows.{add_constructor_entities, add_constructor_tests, entities_writes};
    ghost use Rattle.mol_op.specs.Tests.{condition, tests_names};

    ghost fault = { λ op. condition (add_constructor_tests op) };

    ghost writes = { λ op. entities_writes (add_constructor_entities op) };

    ghost names = { λ op. tests_names (add_constructor_tests op) };

    ghost named = { λ op. condition-named (add_constructor_tests op) };

    ghost grows = { λ op. condition-grows (add_constructor_tests op) };

    ghost keeps = { add_constructor-keeps };

    #[tactic(auto, using(crate::proofs::ConditionParts::add_constructor_parts))]
    fn applies(&self, tag: Tag, table: &Table) -> Result<(), OpFault> {
        fresh(table, &tag, &self.method, false)?;
        fresh(table, &tag, &self.decl, self.decl == self.method)?;
        need(table, Want::Class, &self.owner)?;
        check_new_method(
            table,
            &tag,
            &self.method,
            &self.decl,
            MethodKind::Constructor,
            self.params.items(),
            &self.body,
        )
    }

    fn apply(&self, alloc: Global, tag: Tag, table: &mut Table) -> Result<(), ApplyFault> {
        self.applies(tag, table)?;
        rules(table);
        let entities = self.entities(alloc)?;
        table.add(entities)?;
        Ok(())
    }
}

impl AddConstructor {
    ghost use Rattle.std.specs.Prelude.{◌≡◌, IfOk};
    ghost use Rattle.mol_op.specs.Rows.{add_constructor_entities};

    /// What it adds, with all values.
    fn entities(&self, alloc: Global) -> Result<List<NewEntity>, OutOfMemory>
        ensures { IfOk result (λ list. list ≡ add_constructor_entities self.now) }
    {
        let method = method_entity(
            alloc,
            &self.method,
            Text::empty(alloc),
            IType::Void,
            &self.params,
            MethodKind::Constructor,
            false,
        )?;
        let decl = decl_entity(
            alloc,
            &self.decl,
            &self.owner,
            &self.method,
            &self.words,
            &self.notes,
            &self.body,
        )?;
        let mut entities = List::new(alloc);
        entities.add(method)?;
        entities.add(decl)?;
        Ok(entities)
    }

    /// An operation that equals this one.
    pub fn copy(&self, alloc: Global) -> Result<AddConstructor, OutOfMemory>
        ensures { IfOk result (λ copy. copy ≡ self.now) }
    {
        Ok(AddConstructor {
            method: self.method,
            decl: self.decl,
            owner: self.owner,
            params: copy_params(alloc, self.params.items())?,
            words: self.words.copy(alloc)?,
            notes: self.notes.copy(alloc)?,
            body: copy_body(alloc, &self.body)?,
        })
    }
}
