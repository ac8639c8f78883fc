//! Constructors as entities.
ghost use Rattle.std.specs.Prelude.{◌≡◌, IfOk, option_map};
ghost use Rattle.std.specs.Option.{option_zip};
ghost use Rattle.mol_resolve_entities.specs.member_entities.Made.{constructor_made};

use crate::member_entities::member_entities::{Heading, MemberEntities, declared, with_method};
use crate::member_entities::member_ids::{MemberIds, MethodIds};
use jav_tree::Ctor;
use mol_base::{List, OutOfMemory, Text};
use mol_values_types::{IBody, IType, MethodKind, Param};
use std::alloc::Global;

/// A declaration of a constructor, of its parameters and its body, and the constructor itself: it has no name and gives `void`. None,
/// where one of its parts has no meaning. `Err` is want of memory.
pub fn constructor_made(
    alloc: Global,
    ids: MemberIds,
    method_ids: &MethodIds,
    ctor: &Ctor,
    params: Option<List<Param>>,
    body: Option<IBody>,
) -> Result<Option<MemberEntities>, OutOfMemory>
    ensures { IfOk result (λ made. made ≡ option_map (constructor_made ids method_ids.now ctor.now) (option_zip params body)) }
{
    let Some(params) = params else {
        return Ok(None);
    };
    let Some(body) = body else {
        return Ok(None);
    };
    Ok(Some(with_body(alloc, ids, method_ids, ctor, params, body)?))
}

/// A declaration of a constructor, and the constructor.
fn with_body(
    alloc: Global,
    ids: MemberIds,
    method_ids: &MethodIds,
    ctor: &Ctor,
    params: List<Param>,
    body: IBody,
) -> Result<MemberEntities, OutOfMemory>
    ensures { IfOk result (λ made. made ≡ constructor_made ids method_ids.now ctor.now (params, body)) }
{
    let words = ctor.words.items();
    let front = ctor.front.items();
    let declared = declared(alloc, ids, method_ids, words, front, Some(body))?;
    let name = Text::empty(alloc);
    let heading = Heading {
        gives: IType::Void,
        params,
        kind: MethodKind::Constructor,
    };
    with_method(alloc, declared, method_ids, &name, heading)
}
