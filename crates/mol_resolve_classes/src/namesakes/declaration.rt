//! Declarations as they are compared with their namesakes.
ghost use Rattle.std.specs.Prelude.{◌≡◌, map};
ghost use Rattle.std.specs.Ordering.{nat_cmp};
ghost use Rattle.jav_names.specs.seen.Kept.{view_type};
ghost use Rattle.mol_resolve_rules.specs.FaultLists.{same_types};
ghost use Rattle.mol_resolve_classes.specs.namesakes.Compared.{gives_same, takes_same};

use jav_names::SeenType;

/// A method or a constructor of a class by what its namesakes are compared with it by.
#[derive(Clone, Copy)]
pub struct Declaration<'a> {
    /// Its place among the members of its class, from 0.
    pub place: u32,
    /// The bytes of its name; none of a constructor.
    pub name: &'a [u8],
    /// The types of its parameters.
    pub params: &'a [SeenType],
    /// What a method gives; `void` of a constructor.
    pub result: &'a SeenType,
    pub is_static: bool,
}

impl<'a> Declaration<'a> {
    /// Whether two declarations take equal types.
    pub(crate) fn takes_same(&self, latter: &Declaration<'a>) -> bool
        ensures { result ≡ takes_same self.now latter.now }
    {
        same_types(self.params, latter.params)
    }

    /// Whether two declarations give equal types.
    pub(crate) fn gives_same(&self, latter: &Declaration<'a>) -> bool
        ensures { result ≡ gives_same self.now latter.now }
    {
        self.result.same(latter.result)
    }
}

/// Whether two lists are as long, and each type equals that in its place. A type whose name reads as nothing equals none.
fn same_types(former: &[SeenType], latter: &[SeenType]) -> bool
    ensures { result ≡ same_types nat_cmp (map view_type former.now) (map view_type latter.now) }
{
    for (place, ty) in former.iter().enumerate() {
        match latter.get(place) {
            None => return false,
            Some(against) => {
                if !ty.same(against) {
                    return false;
                }
            },
        }
    }
    former.len() == latter.len()
}
