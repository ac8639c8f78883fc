//! Values, tidied.
ghost use Rattle.std.specs.Prelude.{◌≡◌, IfOk, option_map};
ghost use Rattle.mol_table.specs.Tidying.{body_by, value_by};

use crate::maps::Maps;
use crate::tidy::{tidy_body, tidy_maybe};
use indexmap::IndexMap;
use mol_base::{Boxed, Id, OutOfMemory};
use mol_values_types::{IBody, Value};
use std::alloc::Global;

/// The body there is, tidied.
fn tidy_own_body(
    alloc: Global,
    maps: &Maps,
    index: &IndexMap<Id, Id>,
    body: &Option<IBody>,
) -> Result<Option<IBody>, OutOfMemory>
    ensures { IfOk result (λ o. o ≡ option_map (body_by maps.now index.now.entries) body.now) }
{
    match body {
        Some(body) => Ok(Some(tidy_body(alloc, maps, index, body)?)),
        None => Ok(None),
    }
}

/// The value, tidied. Only a body and the first value of a field hold calls.
pub(crate) fn tidy_value(
    alloc: Global,
    maps: &Maps,
    index: &IndexMap<Id, Id>,
    value: &Value,
) -> Result<Value, OutOfMemory>
    ensures { IfOk result (λ tidied. tidied ≡ value_by maps.now index.now.entries value.now) }
{
    match value {
        Value::Body(body) => Ok(Value::Body(tidy_own_body(alloc, maps, index, body)?)),
        Value::Value(ty, init) => Ok(Value::Value(
            ty.copy(alloc)?,
            Boxed::new(alloc, tidy_maybe(alloc, maps, index, init.get())?)?,
        )),
        _ => value.copy(alloc),
    }
}
