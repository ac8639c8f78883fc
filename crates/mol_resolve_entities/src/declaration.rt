//! Declarations of methods and constructors as entities.
ghost use Rattle.std.specs.Prelude.{◌≡◌, ◌∷◌, [], true, IfOk};
ghost use Rattle.mol_resolve_entities.specs.Parts.{declaration_entity};
ghost use Rattle.mol_values_types.specs.declared.kind.Kind.TheVariants as kinds;
ghost use Rattle.mol_values_types.specs.declared.value.Value.TheVariants as values;

use crate::words::Front;
use mol_base::{Id, List, OutOfMemory, Text};
use mol_table_rules::NewEntity;
use mol_values_types::{IBody, Kind, Value};
use std::alloc::Global;

/// A declaration by its identity and those of its class and its method, with its modifiers, the comments before it and its body, which
/// an abstract method does not have. The time is linear in its comments and modifiers. `Err` is want of memory.
pub fn declaration_entity(
    alloc: Global,
    id: Id,
    owner: Id,
    method: Id,
    words: &[Text],
    front: &[Text],
    body: Option<IBody>,
) -> Result<NewEntity, OutOfMemory>
    ensures { IfOk result (λ entity. entity ≡ declaration_entity id owner method words.now front.now body) }
{
    let front = Front::new(alloc, words, front)?;
    with_body(alloc, id, owner, method, front, body)
}

/// A declaration with these modifiers and comments, and this body.
fn with_body(
    alloc: Global,
    id: Id,
    owner: Id,
    method: Id,
    front: Front,
    body: Option<IBody>,
) -> Result<NewEntity, OutOfMemory>
    ensures { IfOk result (λ entity. entity ≡ record {
      id = id;
      kind = kinds.Decl;
      values = values.Live true ∷ values.Owner owner ∷ values.Method method ∷ front.words ∷ front.notes ∷ values.Body body ∷ [];
    }) }
{
    let values = vec![in alloc;
        Value::Live(true),
        Value::Owner(owner),
        Value::Method(method),
        front.words,
        front.notes,
        Value::Body(body),
    ]?;
    Ok(NewEntity {
        id,
        kind: Kind::Decl,
        values: List::from_vec(values),
    })
}
