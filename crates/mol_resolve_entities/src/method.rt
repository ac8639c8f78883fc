//! Methods and constructors as entities.
ghost use Rattle.std.specs.Prelude.{◌≡◌, ◌∷◌, [], IfOk};
ghost use Rattle.jav_names.specs.Members.{is_object_method};
ghost use Rattle.mol_resolve_entities.specs.Parts.{method_entity};
ghost use Rattle.mol_values_types.specs.declared.kind.Kind.TheVariants as kinds;
ghost use Rattle.mol_values_types.specs.declared.value.Value.TheVariants as values;

use jav_scope::is_object_method;
use mol_base::{Id, List, OutOfMemory, Text, number_of};
use mol_table_rules::NewEntity;
use mol_values_types::{IType, Kind, MethodKind, Param, Value};
use std::alloc::Global;

/// The name of a method, and whether it is fixed.
#[derive(Drop)]
struct MethodName {
    name: Value,
    fixed: Value,
}

/// A method by its identity, with the type of what it gives and its parameters; a constructor has an empty name and gives `void`. It is
/// fixed where `java.lang.Object` has a method of this name and number of parameters. `Err` is want of memory.
pub fn method_entity(
    alloc: Global,
    id: Id,
    name: &Text,
    gives: IType,
    params: List<Param>,
    kind: MethodKind,
) -> Result<NewEntity, OutOfMemory>
    ensures { IfOk result (λ entity. entity ≡ method_entity id name.now gives params kind) }
{
    let named = named(alloc, name, params.items().len())?;
    with_types(alloc, id, named, gives, params, kind)
}

/// The name of a method that has so many parameters.
fn named(alloc: Global, name: &Text, count: usize) -> Result<MethodName, OutOfMemory>
    ensures name { IfOk result (λ named. named.name ≡ values.Name name.now) }
    ensures fixed { IfOk result (λ named. named.fixed ≡ values.Fixed (is_object_method name.now count)) }
{
    let arity = number_of(count)?;
    let fixed = is_object_method(name, arity);
    Ok(MethodName {
        name: Value::Name(name.copy(alloc)?),
        fixed: Value::Fixed(fixed),
    })
}

/// A method with this name, this result and these parameters.
fn with_types(
    alloc: Global,
    id: Id,
    named: MethodName,
    gives: IType,
    params: List<Param>,
    kind: MethodKind,
) -> Result<NewEntity, OutOfMemory>
    ensures { IfOk result (λ entity. entity ≡ record {
      id = id;
      kind = kinds.Method;
      values = named.name ∷ values.Result gives ∷ values.Params params ∷ values.Kind kind ∷ named.fixed ∷ [];
    }) }
{
    let values = vec![in alloc;
        named.name,
        Value::Result(gives),
        Value::Params(params),
        Value::Kind(kind),
        named.fixed,
    ]?;
    Ok(NewEntity {
        id,
        kind: Kind::Method,
        values: List::from_vec(values),
    })
}
