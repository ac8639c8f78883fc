//! Members as entities.
ghost use Rattle.std.specs.Prelude.{◌≡◌, IfOk};
ghost use Rattle.mol_resolve_entities.specs.Parts.{declaration_entity, method_entity};
ghost use Rattle.mol_resolve_entities.specs.member_entities.Made.{with_method};

use crate::member_entities::member_ids::{MemberIds, MethodIds};
use crate::{declaration_entity, method_entity};
use mol_base::{List, OutOfMemory, Text};
use mol_table_rules::NewEntity;
use mol_values_types::{IBody, IType, MethodKind, Param};
use std::alloc::Global;

/// The entities of a member: its own, and that of its method where it is the topmost declaration of one.
#[derive(Drop)]
pub struct MemberEntities {
    pub member: NewEntity,
    pub method: Option<NewEntity>,
}

/// What is said of a method where it is declared.
#[derive(Drop)]
pub(crate) struct Heading {
    pub gives: IType,
    pub params: List<Param>,
    pub kind: MethodKind,
}

/// A declaration with its modifiers, the comments before it and its body, which an abstract method does not have.
pub(crate) fn declared(
    alloc: Global,
    ids: MemberIds,
    method: &MethodIds,
    words: &[Text],
    front: &[Text],
    body: Option<IBody>,
) -> Result<NewEntity, OutOfMemory>
    ensures { IfOk result (λ made. made ≡ declaration_entity ids.id ids.owner method.now.id words.now front.now body) }
{
    declaration_entity(alloc, ids.id, ids.owner, method.id, words, front, body)
}

/// A declaration; and its method, which has this name, where this is the topmost declaration of it.
pub(crate) fn with_method(
    alloc: Global,
    declared: NewEntity,
    ids: &MethodIds,
    name: &Text,
    heading: Heading,
) -> Result<MemberEntities, OutOfMemory>
    ensures { IfOk result (λ made. made
        ≡ with_method ids.now declared (method_entity ids.now.id name.now heading.gives heading.params heading.kind)) }
{
    if !ids.is_top {
        return Ok(MemberEntities {
            member: declared,
            method: None,
        });
    }
    let method = method_of(alloc, ids, name, heading)?;
    Ok(MemberEntities {
        member: declared,
        method: Some(method),
    })
}

/// The method of a declaration.
fn method_of(
    alloc: Global,
    ids: &MethodIds,
    name: &Text,
    heading: Heading,
) -> Result<NewEntity, OutOfMemory>
    ensures { IfOk result (λ made. made ≡ method_entity ids.now.id name.now heading.gives heading.params heading.kind) }
{
    let Heading {
        gives,
        params,
        kind,
    } = heading;
    method_entity(alloc, ids.id, name, gives, params, kind)
}
