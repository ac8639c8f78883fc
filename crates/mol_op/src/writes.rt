//! What operations write into a table.
ghost use Rattle.std.specs.Prelude.{◌≡◌, ◌∷◌, [], IfOk};
ghost use Rattle.mol_op.specs.Changes.{written};
ghost use Rattle.mol_op.specs.Keeps.{MaySet};
ghost use Rattle.mol_op.specs.Rows.{write, new_decl, new_method};
ghost use Rattle.mol_table_rules.specs.Rules.{IsProgram};

use crate::copies::{copy_body, copy_params};
use mol_base::{Id, List, OutOfMemory, Text};
use mol_table::Table;
use mol_table_rules::NewEntity;
use mol_values_types::{Cell, IBody, IType, Kind, MethodKind, Notes, Param, Value, Words};
use std::alloc::Global;

/// The rules of programs hold of every table. It does nothing.
pub fn rules(table: &Table)
    ensures { IsProgram table.now }
{
    let _ = table.ids();
}

/// Gives a cell of a known entity another value. It takes no memory.
pub fn set_cell(table: &mut Table, id: &Id, value: Value)
    requires { MaySet table.old id.now value }
    ensures { table.new ≡ written table.old (write id.now value ∷ []) [] }
{
    rules(table);
    let cell = Cell {
        id: *id,
        slot: value.slot(),
    };
    match table.set(cell, value) {
        Ok(()) => (),
        Err(_) => unreachable!(),
    }
}

/// A method that is to be added.
pub fn method_entity(
    alloc: Global,
    method: &Id,
    name: Text,
    gives: IType,
    params: &List<Param>,
    kind: MethodKind,
    fixed: bool,
) -> Result<NewEntity, OutOfMemory>
    ensures { IfOk result (λ entity. entity ≡ new_method method.now name gives params.now kind fixed) }
{
    let mut values = List::new(alloc);
    values.add(Value::Name(name))?;
    values.add(Value::Result(gives))?;
    values.add(Value::Params(copy_params(alloc, params.items())?))?;
    values.add(Value::Kind(kind))?;
    values.add(Value::Fixed(fixed))?;
    Ok(NewEntity {
        id: *method,
        kind: Kind::Method,
        values,
    })
}

/// A declaration that is to be added.
pub fn decl_entity(
    alloc: Global,
    decl: &Id,
    owner: &Id,
    method: &Id,
    words: &Words,
    notes: &Notes,
    body: &Option<IBody>,
) -> Result<NewEntity, OutOfMemory>
    ensures { IfOk result (λ entity. entity ≡ new_decl decl.now owner.now method.now words.now notes.now body.now) }
{
    let mut values = List::new(alloc);
    values.add(Value::Live(true))?;
    values.add(Value::Owner(*owner))?;
    values.add(Value::Method(*method))?;
    values.add(Value::Words(words.copy(alloc)?))?;
    values.add(Value::Notes(notes.copy(alloc)?))?;
    values.add(Value::Body(copy_body(alloc, body)?))?;
    Ok(NewEntity {
        id: *decl,
        kind: Kind::Decl,
        values,
    })
}
