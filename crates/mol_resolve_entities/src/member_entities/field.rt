//! Fields as entities.
ghost use Rattle.std.specs.Prelude.{◌≡◌, IfOk, option_map};
ghost use Rattle.std.specs.Option.{option_zip};
ghost use Rattle.mol_resolve_entities.specs.member_entities.Made.{field_made};

use crate::field_entity;
use crate::member_entities::member_entities::MemberEntities;
use crate::member_entities::member_ids::MemberIds;
use jav_tree::Field;
use mol_base::OutOfMemory;
use mol_values_types::{IExpr, IType};
use std::alloc::Global;

/// A field, of its type and its first value, if it has one. None, where one of these has no meaning.
/// `Err` is want of memory.
pub fn field_made(
    alloc: Global,
    ids: MemberIds,
    field: &Field,
    ty: Option<IType>,
    init: Option<Option<IExpr>>,
) -> Result<Option<MemberEntities>, OutOfMemory>
    ensures { IfOk result (λ made. made ≡ option_map (field_made ids field.now) (option_zip ty init)) }
{
    let Some(ty) = ty else {
        return Ok(None);
    };
    let Some(init) = init else {
        return Ok(None);
    };
    let member = field_entity(alloc, ids.id, ids.owner, field, ty, init)?;
    Ok(Some(MemberEntities {
        member,
        method: None,
    }))
}
