//! The names that clash in the declarations of a program.
ghost use Rattle.std.specs.Borrow.{Bor};
ghost use Rattle.std.specs.Prelude.{◌≡◌, ◌++◌, ◌∷◌, [], IfOk, OnOk, map, option_copied};
ghost use Rattle.jav_names.specs.DottedNames.{Name};
ghost use Rattle.mol_faults_values.specs.local_faults.Clashing.{body_in, body_scopes, clash_of, clashes_among, clashes_at, clashes_of};
ghost use Rattle.mol_spell_rules.specs.LocalClashes.{then_next};
ghost use Rattle.mol_table_rules.specs.Program.{value_at};
ghost use Rattle.mol_values_types.specs.declared.cell.Slot.TheVariants as slots;

use crate::local_faults::body::{declare_block, declare_params};
use crate::local_faults::clash::Clash;
use crate::local_faults::scope::Scope;
use mol_base::{Id, OutOfMemory, Text};
use mol_scope_classes::{living_method_of, params_of};
use mol_table::Table;
use mol_values_types::{Cell, IBody, Param, Slot, Value};
use std::alloc::Global;

/// What clashes in the declarations among these identities that live.
pub(crate) fn clashes_among(
    alloc: Global,
    table: &Table,
    ids: &[Id],
) -> Result<Vec<Clash>, OutOfMemory>
    ensures { IfOk result (λ clashes. clashes.items ≡ clashes_among table.now ids.now) }
{
    let mut clashes = Vec::new(alloc);
    for id in ids {
        add_clashes(alloc, &mut clashes, table, id)?;
    }
    Ok(clashes)
}

/// Adds what clashes in a declaration, where the identity is one of a declaration that lives.
fn add_clashes(
    alloc: Global,
    clashes: &mut Vec<Clash>,
    table: &Table,
    id: &Id,
) -> Result<(), OutOfMemory>
    ensures { OnOk result (clashes.new.items ≡ clashes.old.items ++ clashes_at table.now id.now) }
{
    match living_method_of(table, id) {
        Some(method) => {
            let names = clashes_of(alloc, params_of(table, &method), body_of(table, id))?;
            add_names(alloc, clashes, id, names.as_slice())
        },
        None => Ok(()),
    }
}

/// Adds names that clash in a declaration.
fn add_names(
    alloc: Global,
    clashes: &mut Vec<Clash>,
    declaration: &Id,
    names: &[&str],
) -> Result<(), OutOfMemory>
    ensures { OnOk result (clashes.new.items
        ≡ clashes.old.items ++ map (clash_of declaration.now) (map (λ (name : Bor Name). name.now) names.now)) }
{
    for name in names {
        add_name(alloc, clashes, declaration, *name)?;
    }
    Ok(())
}

/// Adds a name that clashes in a declaration.
fn add_name(
    alloc: Global,
    clashes: &mut Vec<Clash>,
    declaration: &Id,
    name: &str,
) -> Result<(), OutOfMemory>
    ensures { OnOk result (clashes.new.items ≡ clashes.old.items ++ clash_of declaration.now name.now ∷ []) }
{
    let name = Text::from_str(alloc, name)?;
    clashes.push(Clash {
        declaration: *declaration,
        name,
    })?;
    Ok(())
}

/// The body of a declaration, if it has one. It takes no memory.
fn body_of<'a>(table: &'a Table, declaration: &Id) -> Option<&'a IBody>
    ensures { option_copied result ≡ body_in (value_at table.now declaration.now slots.Body) }
{
    let cell = Cell {
        id: *declaration,
        slot: Slot::Body,
    };
    match table.get(&cell) {
        Some(Value::Body(Some(body))) => Some(body),
        _ => None,
    }
}

/// The names that clash where these parameters are declared and then the locals of a body.
fn clashes_of<'a>(
    alloc: Global,
    params: &'a [Param],
    body: Option<&'a IBody>,
) -> Result<Vec<&'a str>, OutOfMemory>
    ensures { IfOk result (λ names. map (λ (name : Bor Name). name.now) names.items ≡ clashes_of params.now (option_copied body.entry)) }
{
    let mut scope = Scope::new(alloc);
    declare_params(&mut scope, params)?;
    declare_body(&mut scope, body)?;
    Ok(scope.into_clashes())
}

/// What the body declares, if there is one.
fn declare_body<'a>(scope: &mut Scope<'a>, body: Option<&'a IBody>) -> Result<(), OutOfMemory>
    ensures { OnOk result (scope.new ≡ then_next scope.old (body_scopes (option_copied body.entry))) }
{
    match body {
        Some(body) => declare_block(scope, &body.block),
        None => Ok(()),
    }
}
