//! What two static types have in common.
ghost use Rattle.std.specs.Prelude.{◌≡◌, IfOk, length};
ghost use Rattle.jav_scope.specs.Entries.{view_in};
ghost use Rattle.jav_names.specs.seen.Kept.{view_value};
ghost use Rattle.jav_names.specs.StaticTypes.{common, common_apart, upper_class};

use crate::Scope;
use crate::ancestors::is_ancestor;
use crate::choices::unread::are_unread;
use jav_names::StaticType;
use mol_base::OutOfMemory;
use std::alloc::Global;

/// The static type of a choice `?:` between values of these types (JLS 15.25), by the first of these that holds. Both are one type: that
/// type. Nothing is known of what they have in common: unread. One is the type of `null`: the other. Both are classes, one above the
/// other: the upper class, and in a circle of superclasses the first. Else mixed. `count` is the number of files of which the scope is
/// made. The time is that of the ways up from two classes. `Err` is want of memory.
pub fn common(
    alloc: Global,
    scope: &Scope<'_>,
    count: usize,
    first: &StaticType,
    second: &StaticType,
) -> Result<StaticType, OutOfMemory>
    requires { count ≡ length scope.now }
    ensures { IfOk result (λ ty. view_value ty ≡ common (view_in scope.now) (view_value first.now) (view_value second.now)) }
{
    if first.same(second) {
        return copied(alloc, first);
    }
    if are_unread(first, second) {
        return Ok(StaticType::Unread);
    }
    common_apart(alloc, scope, count, first, second)
}

/// That of types that are known and not equal.
fn common_apart(
    alloc: Global,
    scope: &Scope<'_>,
    count: usize,
    first: &StaticType,
    second: &StaticType,
) -> Result<StaticType, OutOfMemory>
    requires { count ≡ length scope.now }
    ensures { IfOk result (λ ty. view_value ty ≡ common_apart (view_in scope.now) (view_value first.now) (view_value second.now)) }
{
    match (first, second) {
        (StaticType::Null, _) => copied(alloc, second),
        (_, StaticType::Null) => copied(alloc, first),
        (StaticType::Class(first), StaticType::Class(second)) => {
            Ok(upper_class(scope, count, *first, *second))
        },
        _ => Ok(StaticType::Mixed),
    }
}

/// Of two classes the one that is an ancestor of the other.
fn upper_class(scope: &Scope<'_>, count: usize, first: u32, second: u32) -> StaticType
    requires { count ≡ length scope.now }
    ensures { view_value result ≡ upper_class (view_in scope.now) first second }
{
    if is_ancestor(scope, count, second, first) {
        return StaticType::Class(first);
    }
    if is_ancestor(scope, count, first, second) {
        return StaticType::Class(second);
    }
    StaticType::Mixed
}

/// The same static type once more.
fn copied(alloc: Global, ty: &StaticType) -> Result<StaticType, OutOfMemory>
    ensures { IfOk result (λ copy. copy ≡ ty.now) }
{
    match ty {
        StaticType::Primitive => Ok(StaticType::Primitive),
        StaticType::Null => Ok(StaticType::Null),
        StaticType::Void => Ok(StaticType::Void),
        StaticType::Mixed => Ok(StaticType::Mixed),
        StaticType::Outside => Ok(StaticType::Outside),
        StaticType::Class(class) => Ok(StaticType::Class(*class)),
        StaticType::Array(item) => Ok(StaticType::Array(item.copy(alloc)?)),
        StaticType::Unread => Ok(StaticType::Unread),
    }
}
