//! The static types of what is named by its identity.
ghost use Rattle.std.specs.Prelude.{◌≡◌, find, option_copied};
ghost use Rattle.mol_resolve_rules.specs.StaticTypes.{field_value, param_value, present_param, result_value};
ghost use Rattle.mol_table_rules.specs.Program.{same_id};
ghost use Rattle.mol_scope.specs.types.Kept.{view_value};

use mol_base::Id;
use mol_scope::StaticType;
use mol_scope_classes::params_of;
use mol_table::Table;
use mol_values_types::{Cell, Param, Slot, Value};

/// The static type of a field; mixed where this is none. It takes no memory.
pub(crate) fn field_value<'a>(table: &'a Table, field: &Id) -> StaticType<'a>
    ensures { view_value result ≡ field_value table.now field.now }
{
    let cell = Cell {
        id: *field,
        slot: Slot::Value,
    };
    match table.get(&cell) {
        Some(Value::Value(ty, _)) => StaticType::of_type(ty),
        _ => StaticType::Mixed,
    }
}

/// The static type of what a method gives; mixed where this is none. It takes no memory.
pub(crate) fn result_value<'a>(table: &'a Table, method: &Id) -> StaticType<'a>
    ensures { view_value result ≡ result_value table.now method.now }
{
    let cell = Cell {
        id: *method,
        slot: Slot::Result,
    };
    match table.get(&cell) {
        Some(Value::Result(ty)) => StaticType::of_type(ty),
        _ => StaticType::Mixed,
    }
}

/// The static type of a parameter; mixed where it is not, or no longer, in the list of its method. It takes no memory. The time is linear
/// in the length of that list, which is at most 255 in a program that is read.
pub(crate) fn param_value<'a>(table: &'a Table, param: &Id) -> StaticType<'a>
    ensures { view_value result ≡ param_value table.now param.now }
{
    match present_param(table, param) {
        Some(param) => StaticType::of_type(&param.ty),
        None => StaticType::Mixed,
    }
}

/// The parameter of an identity, in the list of its method, if it stands there.
fn present_param<'a>(table: &'a Table, id: &Id) -> Option<&'a Param>
    ensures { option_copied result ≡ present_param table.now id.now }
{
    match table.method_of_param(*id) {
        Some(method) => param_in(params_of(table, &method), id),
        None => None,
    }
}

/// The parameter of an identity among these.
fn param_in<'a>(params: &'a [Param], id: &Id) -> Option<&'a Param>
    ensures { option_copied result ≡ find (λ param. same_id id.now param.id) params.now }
{
    params.iter().find(|param| is_same(id, &param.id))
}

/// Whether two identities are the same.
fn is_same(first: &Id, second: &Id) -> bool
    ensures { result ≡ same_id first.now second.now }
{
    first == second
}
