//! Members as they are told apart from those of their class.
ghost use Rattle.std.specs.Prelude.{◌≡◌, nat_lt, ◌&&◌};
ghost use Rattle.std.specs.Ordering.{is_eq};
ghost use Rattle.mol_resolve_classes.specs.signatures.Repeats.{is_known};
ghost use Rattle.mol_resolve_classes.specs.signatures.SignatureOrder.{key_cmp, signature_cmp};

use crate::signatures::member_kind::MemberKind;
use crate::signatures::type_order::{all_known, compare_types};
use jav_names::SeenType;
use std::cmp::Ordering;

/// A member of a class by what tells it apart there: a field by its name (JLS 8.3), a method by its name and the types of its
/// parameters (JLS 8.4.2), a constructor by those types (JLS 8.8.2).
#[derive(Clone, Copy)]
pub struct Signature<'a> {
    /// Its place among the members of its class, from 0.
    pub place: u32,
    pub kind: MemberKind,
    /// The bytes of its name; none of a constructor.
    pub name: &'a [u8],
    /// The types of its parameters; none of a field.
    pub params: &'a [SeenType],
}

impl Signature<'_> {
    /// How two members compare in the order in which those that are told apart by nothing but their places stand beside each other.
    pub(crate) fn compare(&self, latter: &Signature<'_>) -> Ordering
        ensures { result ≡ signature_cmp self.now latter.now }
    {
        match self.compare_key(latter) {
            Ordering::Equal => self.place.cmp(&latter.place),
            order => order,
        }
    }

    /// How they compare but for their places.
    pub(crate) fn compare_key(&self, latter: &Signature<'_>) -> Ordering
        ensures { result ≡ key_cmp self.now latter.now }
    {
        match self
            .kind
            .cmp(&latter.kind)
            .then(self.name.cmp(&latter.name))
        {
            Ordering::Equal => compare_types(self.params, latter.params),
            order => order,
        }
    }

    /// Whether it repeats the first of those that compare as it does but for their places.
    pub(crate) fn repeats(&self, first: &Signature<'_>) -> bool
        ensures { result ≡ (is_eq (key_cmp first.now self.now) && (nat_lt first.now.place self.now.place && is_known self.now)) }
    {
        first.compare_key(self).is_eq() && self.is_known_after(first.place)
    }

    /// Whether it stands after this place of the class, and each type of its parameters is known.
    fn is_known_after(&self, place: u32) -> bool
        ensures { result ≡ (nat_lt place self.now.place && is_known self.now) }
    {
        place < self.place && all_known(self.params)
    }
}
