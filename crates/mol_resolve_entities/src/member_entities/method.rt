//! Methods as entities.
ghost use Rattle.std.specs.Prelude.{◌≡◌, IfOk, option_map};
ghost use Rattle.std.specs.Option.{option_zip};
ghost use Rattle.mol_resolve_entities.specs.member_entities.Made.{kind_of_method, method_made};

use crate::member_entities::member_entities::{Heading, MemberEntities, declared, with_method};
use crate::member_entities::member_ids::{MemberIds, MethodIds};
use jav_tree::Method;
use mol_base::{List, OutOfMemory};
use mol_values_types::{IBody, IType, MethodKind, Param};
use std::alloc::Global;

/// A declaration of a method, of the type that it gives, its parameters and its body, if it has one; and the method, where this is its
/// topmost declaration. None, where one of these has no meaning. `Err` is want of memory.
pub fn method_made(
    alloc: Global,
    ids: MemberIds,
    method_ids: &MethodIds,
    method: &Method,
    gives: Option<IType>,
    params: Option<List<Param>>,
    body: Option<Option<IBody>>,
) -> Result<Option<MemberEntities>, OutOfMemory>
    ensures { IfOk result (λ made. made
        ≡ option_map (method_made ids method_ids.now method.now) (option_zip (option_zip gives params) body)) }
{
    let Some(gives) = gives else {
        return Ok(None);
    };
    let Some(params) = params else {
        return Ok(None);
    };
    let Some(body) = body else {
        return Ok(None);
    };
    let heading = Heading {
        gives,
        params,
        kind: kind_of(method),
    };
    Ok(Some(with_body(alloc, ids, method_ids, method, heading, body)?))
}

/// A declaration of a method, and the method where this is its topmost one.
fn with_body(
    alloc: Global,
    ids: MemberIds,
    method_ids: &MethodIds,
    method: &Method,
    heading: Heading,
    body: Option<IBody>,
) -> Result<MemberEntities, OutOfMemory>
    requires { heading.kind ≡ kind_of_method method.now }
    ensures { IfOk result (λ made. made ≡ method_made ids method_ids.now method.now ((heading.gives, heading.params), body)) }
{
    let words = method.words.items();
    let front = method.front.items();
    let declared = declared(alloc, ids, method_ids, words, front, body)?;
    with_method(alloc, declared, method_ids, &method.name, heading)
}

fn kind_of(method: &Method) -> MethodKind
    ensures { result ≡ kind_of_method method.now }
{
    if method.is_static {
        MethodKind::Static
    } else {
        MethodKind::Instance
    }
}
