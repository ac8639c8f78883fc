//! Equal static types.
ghost use Rattle.std.specs.Prelude.{◌≡◌, IfOk};
ghost use Rattle.jav_names.specs.StaticTypes.{same_type, same_value};
ghost use Rattle.mol_base.specs.Order.{id_cmp};
ghost use Rattle.mol_resolve_rules.specs.ProgramViews.{seen};
ghost use Rattle.mol_resolve_rules.specs.ReadTrees.{arrays};
ghost use Rattle.mol_scope.specs.types.Kept.{view_value};

use crate::types::equal_types::{same_class, same_types};
use crate::types::items::item_at;
use crate::types::static_type::StaticType;
use mol_base::OutOfMemory;
use mol_values_types::IType;
use std::alloc::Global;

/// Whether two static types are equal. The time is linear in the lengths of the types.
/// `Err` is want of memory.
pub fn same_values(
    alloc: Global,
    first: &StaticType<'_>,
    second: &StaticType<'_>,
) -> Result<bool, OutOfMemory>
    ensures { IfOk result (λ same. same ≡ same_value id_cmp (view_value first.now) (view_value second.now)) }
{
    match (first, second) {
        (StaticType::Primitive, StaticType::Primitive) => Ok(true),
        (StaticType::Null, StaticType::Null) => Ok(true),
        (StaticType::Void, StaticType::Void) => Ok(true),
        (StaticType::Mixed, StaticType::Mixed) => Ok(true),
        (StaticType::Outside, StaticType::Outside) => Ok(true),
        (StaticType::Class(first), StaticType::Class(second)) => { Ok(same_class(first, second)) },
        (StaticType::Array(first, more), StaticType::Array(second, further)) => {
            same_arrays(alloc, first, *more, second, *further)
        },
        _ => Ok(false),
    }
}

/// Whether arrays of so many dimensions of the first type and of so many of the second are equal.
fn same_arrays(
    alloc: Global,
    first: &IType,
    more: usize,
    second: &IType,
    further: usize,
) -> Result<bool, OutOfMemory>
    ensures { IfOk result (λ same. same ≡ same_type id_cmp (arrays more (seen first.now)) (arrays further (seen second.now))) }
{
    if more <= further {
        return match item_at(first, further - more) {
            Some(item) => same_types(alloc, item, second),
            None => Ok(false),
        };
    }
    match item_at(second, more - further) {
        Some(item) => same_types(alloc, first, item),
        None => Ok(false),
    }
}
