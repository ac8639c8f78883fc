//! Adding a method.
ghost use Rattle.std.specs.Prelude.{IsTrue};
ghost use Rattle.mol_op.specs.Kept.{add_method_formed};

use crate::conditions::{Want, fresh, need};
use crate::copies::{copy_body, copy_params};
use crate::mentions::{Seen, check_type};
use crate::new_method::check_new_method;
use crate::object::is_of_object;
use crate::writes::{decl_entity, method_entity, rules};
use crate::{ApplyFault, OpFault, Operation};
use mol_base::{Id, List, OutOfMemory, Tag, Text};
use mol_table::Table;
use mol_table_rules::NewEntity;
use mol_values_types::{IBody, IType, MethodKind, Notes, Param, Words};
use std::alloc::Global;

/// Adds a method, and a declaration of it in a class.
#[derive(Drop)]
pub struct AddMethod {
    pub method: Id,
    pub decl: Id,
    /// The class of the declaration.
    pub owner: Id,
    pub name: Text,
    /// An instance or a static method.
    pub kind: MethodKind,
    pub result: IType,
    /// At most 255.
    pub params: List<Param>,
    /// Its modifiers without `abstract` and `static`, which the body and the kind say.
    pub words: Words,
    pub notes: Notes,
    /// None for an abstract method.
    pub body: Option<IBody>,
    pub ghost formed: { IsTrue (add_method_formed name kind result params words notes body) },
}

impl Operation for AddMethod {
    ghost use Rattle.mol_op.specs.Keeping.Kinds.{add_method-keeps};
    ghost use Rattle.mol_op.specs.Laws.{condition-named, condition-grows};
    ghost use Rattle.mol_op.specs.Rows.{add_method_entities, add_method_tests, entities_writes};
    ghost use Rattle.mol_op.specs.Tests.{condition, tests_names};

    ghost fault = { λ op. condition (add_method_tests op) };

    ghost writes = { λ op. entities_writes (add_method_entities op) };

    ghost names = { λ op. tests_names (add_method_tests op) };

    ghost named = { λ op. condition-named (add_method_tests op) };

    ghost grows = { λ op. condition-grows (add_method_tests op) };

    ghost keeps = { add_method-keeps };

    #[tactic(auto, using(crate::proofs::ConditionParts::add_method_parts))]
    fn applies(&self, tag: Tag, table: &Table) -> Result<(), OpFault> {
        fresh(table, &tag, &self.method, false)?;
        fresh(table, &tag, &self.decl, self.decl == self.method)?;
        need(table, Want::Class, &self.owner)?;
        check_type(&Seen::of(table, &self.method), &self.result)?;
        check_new_method(
            table,
            &tag,
            &self.method,
            &self.decl,
            self.kind,
            self.params.items(),
            &self.body,
        )
    }

    fn apply(&self, alloc: Global, tag: Tag, table: &mut Table) -> Result<(), ApplyFault> {
        self.applies(tag, table)?;
        rules(table);
        let entities = self.entities(alloc)?;
        table.add(entities)?;
        Ok(())
    }
}

impl AddMethod {
    ghost use Rattle.std.specs.Prelude.{◌≡◌, IfOk};
    ghost use Rattle.mol_op.specs.Rows.{add_method_entities};

    /// What it adds, with all values.
    fn entities(&self, alloc: Global) -> Result<List<NewEntity>, OutOfMemory>
        ensures { IfOk result (λ list. list ≡ add_method_entities self.now) }
    {
        let fixed = is_of_object(self.name.bytes(), self.params.items().len());
        let name = self.name.copy(alloc)?;
        let gives = self.result.copy(alloc)?;
        let method = method_entity(
            alloc,
            &self.method,
            name,
            gives,
            &self.params,
            self.kind,
            fixed,
        )?;
        let decl = decl_entity(
            alloc,
            &self.decl,
            &self.owner,
            &self.method,
            &self.words,
            &self.notes,
            &self.body,
        )?;
        let mut entities = List::new(alloc);
        entities.add(method)?;
        entities.add(decl)?;
        Ok(entities)
    }

    /// An operation that equals this one.
    pub fn copy(&self, alloc: Global) -> Result<AddMethod, OutOfMemory>
        ensures { IfOk result (λ copy. copy ≡ self.now) }
    {
        Ok(AddMethod {
            method: self.method,
            decl: self.decl,
            owner: self.owner,
            name: self.name.copy(alloc)?,
            kind: self.kind,
            result: self.result.copy(alloc)?,
            params: copy_params(alloc, self.params.items())?,
            words: self.words.copy(alloc)?,
            notes: self.notes.copy(alloc)?,
            body: copy_body(alloc, &self.body)?,
        })
    }
}
