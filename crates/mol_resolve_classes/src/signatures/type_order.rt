//! An order of types.
ghost use Rattle.std.specs.Prelude.{◌≡◌, map, not};
ghost use Rattle.std.specs.List.{list_any};
ghost use Rattle.jav_names.specs.StaticTypes.{is_unread};
ghost use Rattle.jav_names.specs.seen.Kept.{view_type};
ghost use Rattle.mol_resolve_classes.specs.signatures.TypeOrder.{rank_of, type_cmp, types_cmp};

use jav_names::SeenType;
use std::cmp::Ordering;

/// How two lists of types compare: by the first types that differ, or by which is longer.
pub(crate) fn compare_types(former: &[SeenType], latter: &[SeenType]) -> Ordering
    ensures { result ≡ types_cmp (map view_type former.now) (map view_type latter.now) }
{
    for (place, ty) in former.iter().enumerate() {
        match latter.get(place) {
            None => return Ordering::Greater,
            Some(against) => match compare_type(ty, against) {
                Ordering::Equal => {},
                order => return order,
            },
        }
    }
    former.len().cmp(&latter.len())
}

/// How two types compare: by the kinds of types, and then by their classes, texts or items.
fn compare_type(former: &SeenType, latter: &SeenType) -> Ordering
    ensures { result ≡ type_cmp (view_type former.now) (view_type latter.now) }
{
    match (former, latter) {
        (SeenType::Primitive(former), SeenType::Primitive(latter)) => former.cmp(latter),
        (SeenType::Class(former), SeenType::Class(latter)) => former.cmp(latter),
        (SeenType::Outside(former), SeenType::Outside(latter)) => former.cmp(latter),
        (SeenType::Array(former), SeenType::Array(latter)) => {
            compare_type(former.get(), latter.get())
        },
        _ => rank_of(former).cmp(&rank_of(latter)),
    }
}

/// The rank of a kind of types among those kinds.
fn rank_of(ty: &SeenType) -> u8
    ensures { result ≡ rank_of (view_type ty.now) }
{
    match ty {
        SeenType::Primitive(_) => 0,
        SeenType::Void => 1,
        SeenType::Class(_) => 2,
        SeenType::Outside(_) => 3,
        SeenType::Array(_) => 4,
        SeenType::Unread => 5,
    }
}

/// Whether each of these types is known, with the items of arrays.
pub(crate) fn all_known(types: &[SeenType]) -> bool
    ensures { result ≡ not (list_any (λ ty. is_unread (view_type ty)) types.now) }
{
    for ty in types {
        if ty.is_unread() {
            return false;
        }
    }
    true
}
