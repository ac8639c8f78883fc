//! Values of cells as JSON.
ghost use Rattle.std.specs.Prelude.{◌≡◌, IfOk};
ghost use Rattle.serde_json.specs.View.{view};
ghost use Rattle.mol_log_objects.specs.ValueData as spec;

use crate::object::{id_value, text_value, texts_value};
use crate::parts::{
    body_value, init_value, kind_name, notes_value, params_value, superclass_value, type_value,
};
use mol_base::OutOfMemory;
use mol_values_types::{IExpr, IType, Value};
use serde_json::Value as Json;
use std::alloc::Global;

/// The JSON of a value, as the row of a log has it at the key of the value's slot. A flag is a boolean, and the value of a field the
/// list of what stands at `type` and at `value`; comments are always the object that a class has. `Err` is want of memory.
pub fn value_data(alloc: Global, value: &Value) -> Result<Json, OutOfMemory>
    ensures { IfOk result (λ json. view json ≡ spec.value_data value.now) }
{
    match value {
        Value::Live(flag) => Ok(Json::Bool(*flag)),
        Value::Package(text) => text_value(alloc, text.as_str()),
        Value::Owner(id) => id_value(alloc, id),
        Value::Method(id) => id_value(alloc, id),
        Value::Name(text) => text_value(alloc, text.as_str()),
        Value::Super(parent) => superclass_value(alloc, parent),
        Value::Result(ty) => type_value(alloc, ty),
        Value::Params(params) => params_value(alloc, params.items()),
        Value::Kind(kind) => text_value(alloc, kind_name(*kind)),
        Value::Fixed(flag) => Ok(Json::Bool(*flag)),
        Value::Words(words) => texts_value(alloc, words.texts.items()),
        Value::Notes(notes) => notes_value(alloc, notes),
        Value::Body(body) => body_value(alloc, body),
        Value::Value(ty, init) => field_value(alloc, ty, init.get()),
    }
}

/// The list of a field's type and its first value.
fn field_value(alloc: Global, ty: &IType, init: &Option<IExpr>) -> Result<Json, OutOfMemory>
    ensures { IfOk result (λ json. view json ≡ spec.field_data ty.now init.now) }
{
    let mut items = Vec::new(alloc);
    items.push(type_value(alloc, ty)?)?;
    items.push(init_value(alloc, init)?)?;
    Ok(Json::Array(items))
}
