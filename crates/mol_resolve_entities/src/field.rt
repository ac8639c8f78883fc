//! Fields as entities.
ghost use Rattle.std.specs.Prelude.{◌≡◌, IfOk, Option};
ghost use Rattle.mol_resolve_entities.specs.Parts.{field_entity};
ghost use Rattle.mol_values_types.specs.declared.iexpr.IExpr.{IExpr};
ghost use Rattle.mol_values_types.specs.declared.itype.IType.{IType};
ghost use Rattle.mol_values_types.specs.declared.value.Value.TheVariants as values;

use crate::words::Front;
use jav_tree::Field;
use mol_base::{Boxed, Id, List, OutOfMemory};
use mol_table_rules::NewEntity;
use mol_values_types::{IExpr, IType, Kind, Value};
use std::alloc::Global;

/// A field by its identity and that of its class, with its type and its first value, if it has one. The time is linear in its comments
/// and modifiers. `Err` is want of memory.
pub fn field_entity(
    alloc: Global,
    id: Id,
    owner: Id,
    field: &Field,
    ty: IType,
    init: Option<IExpr>,
) -> Result<NewEntity, OutOfMemory>
    ensures { IfOk result (λ entity. entity ≡ field_entity id owner field.now ty init) }
{
    let value = Value::Value(ty, Boxed::new(alloc, init)?);
    with_value(alloc, id, owner, field, value)
}

/// A field with this value, which has its type too.
fn with_value(
    alloc: Global,
    id: Id,
    owner: Id,
    field: &Field,
    value: Value,
) -> Result<NewEntity, OutOfMemory>
    ensures { IfOk result (λ entity. (ty : IType) (init : Option IExpr) → value ≡ values.Value ty init
        → entity ≡ field_entity id owner field.now ty init) }
{
    let front = Front::new(alloc, field.words.items(), field.front.items())?;
    let name = Value::Name(field.name.copy(alloc)?);
    let values = vec![in alloc;
        Value::Live(true),
        Value::Owner(owner),
        name,
        front.words,
        front.notes,
        value,
    ]?;
    Ok(NewEntity {
        id,
        kind: Kind::Field,
        values: List::from_vec(values),
    })
}
