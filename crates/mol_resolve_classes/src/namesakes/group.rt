//! What is known of the namesakes of a class.
ghost use Rattle.std.specs.Prelude.{◌≡◌, [], ◌∷◌, ◌||◌, false, if◌then◌else◌, is_some, nat_lt, not};
ghost use Rattle.std.specs.Option.{option_map_or, option_or};
ghost use Rattle.mol_resolve_classes.specs.namesakes.Groups.{joined, summary, told, told_before};

use crate::namesakes::declaration::Declaration;
use crate::namesakes::differences::{Differences, alike};

/// Namesakes of a class, by the first of them.
#[derive(Clone, Copy)]
pub(crate) struct Group<'a> {
    pub first: Declaration<'a>,
    /// The place of the first of them that takes other types than the first one does.
    pub other_types: Option<u32>,
    /// The place of the first of them that gives another type.
    pub other_result: Option<u32>,
    pub has_static: bool,
}

impl<'a> Group<'a> {
    /// Where this one has no others.
    pub fn of(first: &Declaration<'a>) -> Group<'a>
        ensures { result ≡ summary first.now (first.now ∷ []) }
    {
        Group {
            first: *first,
            other_types: first_place(None, !first.takes_same(first), first.place),
            other_result: first_place(None, !first.gives_same(first), first.place),
            has_static: first.is_static,
        }
    }

    /// With one more of them, which stands after the others.
    pub fn with(&self, next: &Declaration<'a>) -> Group<'a>
        ensures { result ≡ joined self.now next.now }
    {
        let first = &self.first;
        Group {
            first: self.first,
            other_types: first_place(self.other_types, !first.takes_same(next), next.place),
            other_result: first_place(self.other_result, !first.gives_same(next), next.place),
            has_static: self.has_static || next.is_static,
        }
    }

    /// Whether some differ from a declaration: the first does, or another one differs from the first.
    pub fn differences(&self, declaration: &Declaration<'a>) -> Differences
        ensures { result ≡ told self.now declaration.now }
    {
        let first = &self.first;
        Differences {
            types: differ(first.takes_same(declaration), self.other_types),
            result: differ(first.gives_same(declaration), self.other_result),
        }
    }

    /// Whether some do that stand before it.
    pub fn differences_before(&self, declaration: &Declaration<'a>) -> Differences
        ensures { result ≡ told_before self.now declaration.now }
    {
        let first = &self.first;
        let place = declaration.place;
        if first.place >= place {
            return alike();
        }
        Differences {
            types: differ_before(first.takes_same(declaration), self.other_types, place),
            result: differ_before(first.gives_same(declaration), self.other_result, place),
        }
    }

    /// Whether this declaration is static or some of these are.
    pub fn has_static_beside(&self, declaration: &Declaration<'a>) -> bool
        ensures { result ≡ (self.now.has_static || declaration.now.is_static) }
    {
        self.has_static || declaration.is_static
    }
}

/// The place of the first that differs: this one, or else that of the next one where that does.
fn first_place(place: Option<u32>, differs: bool, next: u32) -> Option<u32>
    ensures { result ≡ option_or place (if differs then Some next else None) }
{
    match place {
        Some(place) => Some(place),
        None if differs => Some(next),
        None => None,
    }
}

/// Whether the first differs or another one does.
fn differ(first_is_same: bool, another: Option<u32>) -> bool
    ensures { result ≡ (not first_is_same || is_some another) }
{
    !first_is_same || another.is_some()
}

/// Whether the first differs, or another one does that stands before this place.
fn differ_before(first_is_same: bool, another: Option<u32>, place: u32) -> bool
    ensures { result ≡ (not first_is_same || option_map_or (λ other. nat_lt other place) another false) }
{
    !first_is_same || is_before(another, place)
}

/// Whether there is such a place, and it is before this one.
fn is_before(other: Option<u32>, place: u32) -> bool
    ensures { result ≡ option_map_or (λ other. nat_lt other place) other false }
{
    match other {
        Some(other) => other < place,
        None => false,
    }
}
