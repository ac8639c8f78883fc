//! Values with other identities.
ghost use Rattle.std.specs.Prelude.{◌≡◌, IfOk, map, option_map};
ghost use Rattle.mol_values_types.specs.Renamed.{rename_expr, rename_type, rename_body, rename_param, rename_value, rename_known};
ghost use Rattle.mol_values.specs.Renaming.{name_in};

use crate::renamed::{name_of, rename_body, rename_maybe, rename_type};
use indexmap::IndexMap;
use mol_base::{Boxed, Id, List, OutOfMemory, both};
use mol_values_types::{IBody, IExpr, IType, Known, Param, Value};
use std::alloc::Global;

/// What an identity is known as, with the new identity of a method that has one in `names`. It takes no memory.
pub fn rename_known(names: &IndexMap<Id, Id>, known: &Known) -> Known
    ensures { result ≡ rename_known (name_in names.now.entries) known.now }
{
    match known {
        Known::Class => Known::Class,
        Known::Method(kind) => Known::Method(*kind),
        Known::Decl(method) => Known::Decl(name_of(names, method)),
        Known::Field => Known::Field,
        Known::Param(method) => Known::Param(name_of(names, method)),
    }
}

/// The parameter, renamed.
fn rename_param(
    alloc: Global,
    names: &IndexMap<Id, Id>,
    param: &Param,
) -> Result<Param, OutOfMemory>
    ensures { IfOk result (λ renamed. renamed ≡ rename_param (name_in names.now.entries) param.now) }
{
    Ok(Param {
        id: name_of(names, &param.id),
        name: param.name.copy(alloc)?,
        ty: rename_type(alloc, names, &param.ty)?,
        filler: param.filler.copy(alloc)?,
    })
}

fn rename_params(
    alloc: Global,
    names: &IndexMap<Id, Id>,
    items: &[Param],
) -> Result<List<Param>, OutOfMemory>
    ensures { IfOk result (λ all. all ≡ map (rename_param (name_in names.now.entries)) items.now) }
{
    let mut all = List::new(alloc);
    for item in items {
        all.add(rename_param(alloc, names, item)?)?;
    }
    Ok(all)
}

/// The superclass there is, renamed.
fn rename_parent(
    alloc: Global,
    names: &IndexMap<Id, Id>,
    parent: &Option<IType>,
) -> Result<Option<IType>, OutOfMemory>
    ensures { IfOk result (λ o. o ≡ option_map (rename_type (name_in names.now.entries)) parent.now) }
{
    match parent {
        Some(parent) => Ok(Some(rename_type(alloc, names, parent)?)),
        None => Ok(None),
    }
}

/// The body there is, renamed.
fn rename_own_body(
    alloc: Global,
    names: &IndexMap<Id, Id>,
    body: &Option<IBody>,
) -> Result<Option<IBody>, OutOfMemory>
    ensures { IfOk result (λ o. o ≡ option_map (rename_body (name_in names.now.entries)) body.now) }
{
    match body {
        Some(body) => Ok(Some(rename_body(alloc, names, body)?)),
        None => Ok(None),
    }
}

/// The first value there is, renamed.
fn rename_init(
    alloc: Global,
    names: &IndexMap<Id, Id>,
    init: &Option<IExpr>,
) -> Result<Boxed<Option<IExpr>>, OutOfMemory>
    ensures { IfOk result (λ o. o ≡ option_map (rename_expr (name_in names.now.entries)) init.now) }
{
    Boxed::new(alloc, rename_maybe(alloc, names, init)?)
}

/// The value with the new identity for each that has one in `names`, at every depth; it equals this one elsewhere.
/// `Err` is want of memory.
pub fn rename_value(
    alloc: Global,
    names: &IndexMap<Id, Id>,
    value: &Value,
) -> Result<Value, OutOfMemory>
    ensures { IfOk result (λ renamed. renamed ≡ rename_value (name_in names.now.entries) value.now) }
{
    match value {
        Value::Owner(owner) => Ok(Value::Owner(name_of(names, owner))),
        Value::Method(method) => Ok(Value::Method(name_of(names, method))),
        Value::Super(parent) => match rename_parent(alloc, names, parent) {
            Ok(parent) => Ok(Value::Super(parent)),
            Err(want) => Err(want),
        },
        Value::Result(ty) => match rename_type(alloc, names, ty) {
            Ok(ty) => Ok(Value::Result(ty)),
            Err(want) => Err(want),
        },
        Value::Params(params) => match rename_params(alloc, names, params.items()) {
            Ok(params) => Ok(Value::Params(params)),
            Err(want) => Err(want),
        },
        Value::Body(body) => match rename_own_body(alloc, names, body) {
            Ok(body) => Ok(Value::Body(body)),
            Err(want) => Err(want),
        },
        Value::Value(ty, init) => match both(
            rename_type(alloc, names, ty),
            rename_init(alloc, names, init.get()),
        ) {
            Ok((ty, init)) => Ok(Value::Value(ty, init)),
            Err(want) => Err(want),
        },
        _ => value.copy(alloc),
    }
}
