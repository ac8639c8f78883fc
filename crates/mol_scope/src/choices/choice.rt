//! What two static types have in common.
ghost use Rattle.std.specs.Prelude.{◌≡◌, IfOk};
ghost use Rattle.jav_names.specs.StaticTypes.{common, common_apart, upper_class};
ghost use Rattle.mol_resolve_rules.specs.ProgramViews.{program_view};
ghost use Rattle.mol_scope.specs.types.Kept.{view_value};

use crate::types::{StaticType, same_values};
use mol_base::{Id, OutOfMemory};
use mol_scope_members::{MemberIndex, is_ancestor};
use std::alloc::Global;

/// The static type of a choice `?:` between values of these types (JLS 15.25): the one where they are equal; the second where the first is
/// null, and the first where the second is; of two classes the one that is an ancestor of the other; else mixed. In a program no type is
/// unread. The time is that of the ways up from two classes, and linear in the lengths of the types. `Err` is want of memory.
pub fn common<'a>(
    alloc: Global,
    members: &MemberIndex<'_>,
    first: &StaticType<'a>,
    second: &StaticType<'a>,
) -> Result<StaticType<'a>, OutOfMemory>
    ensures { IfOk result (λ ty. view_value ty ≡ common (program_view members.now) (view_value first.now) (view_value second.now)) }
{
    let same = same_values(alloc, first, second)?;
    if same {
        return Ok(copied(first));
    }
    Ok(common_apart(members, first, second))
}

/// That of types that are not equal. It takes no memory.
fn common_apart<'a>(
    members: &MemberIndex<'_>,
    first: &StaticType<'a>,
    second: &StaticType<'a>,
) -> StaticType<'a>
    ensures { view_value result ≡ common_apart (program_view members.now) (view_value first.now) (view_value second.now) }
{
    match (first, second) {
        (StaticType::Null, _) => copied(second),
        (_, StaticType::Null) => copied(first),
        (StaticType::Class(first), StaticType::Class(second)) => {
            upper_class(members, first, second)
        },
        _ => StaticType::Mixed,
    }
}

/// Of two classes the one that is an ancestor of the other.
fn upper_class<'a>(members: &MemberIndex<'_>, first: &Id, second: &Id) -> StaticType<'a>
    ensures { view_value result ≡ upper_class (program_view members.now) first.now second.now }
{
    if is_ancestor(members, second, first) {
        return StaticType::Class(*first);
    }
    if is_ancestor(members, first, second) {
        return StaticType::Class(*second);
    }
    StaticType::Mixed
}

/// The same static type once more.
fn copied<'a>(ty: &StaticType<'a>) -> StaticType<'a>
    ensures { view_value result ≡ view_value ty.now }
{
    match ty {
        StaticType::Primitive => StaticType::Primitive,
        StaticType::Null => StaticType::Null,
        StaticType::Void => StaticType::Void,
        StaticType::Mixed => StaticType::Mixed,
        StaticType::Outside => StaticType::Outside,
        StaticType::Class(class) => StaticType::Class(*class),
        StaticType::Array(item, dimensions) => StaticType::Array(item, *dimensions),
    }
}
