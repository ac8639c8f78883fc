//! What is not known of types.
ghost use Rattle.std.specs.Prelude.{◌≡◌};
ghost use Rattle.jav_names.specs.seen.Kept.{view_value};
ghost use Rattle.jav_names.specs.StaticTypes.{are_unread};

use jav_names::StaticType;

/// Whether nothing is known of what two values have in common: one is of a type whose name reads as nothing, or both are arrays and the
/// items of one are. It takes no memory.
pub(crate) fn are_unread(first: &StaticType, second: &StaticType) -> bool
    ensures { result ≡ are_unread (view_value first.now) (view_value second.now) }
{
    match (first, second) {
        (StaticType::Unread, _) => true,
        (_, StaticType::Unread) => true,
        (StaticType::Array(first), StaticType::Array(second)) => {
            first.is_unread() || second.is_unread()
        },
        _ => false,
    }
}
