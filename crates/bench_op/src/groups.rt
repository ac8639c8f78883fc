//! Entities in groups.
use mol_base::{Id, Tag};

/// Four entities of a base: a class, and in it a field, and a static method with its declaration.
#[derive(Clone, Copy)]
pub struct Group {
    pub class: Id,
    pub field: Id,
    pub method: Id,
    pub decl: Id,
}

impl Group {
    /// How many entities a group has.
    pub const SIZE: u32 = 4;

    /// The group at a place, from 0 on.
    pub fn at(place: u32) -> Group {
        let first = place.saturating_mul(Group::SIZE);
        Group {
            class: nth(Tag::base(), first, 1),
            field: nth(Tag::base(), first, 2),
            method: nth(Tag::base(), first, 3),
            decl: nth(Tag::base(), first, 4),
        }
    }
}

/// Seven entities that a round of operations adds: a class; a field, a method with a declaration and an override, and a
/// constructor with its declaration, each in a class of the base.
#[derive(Clone, Copy)]
pub struct Added {
    pub class: Id,
    pub field: Id,
    pub method: Id,
    pub decl: Id,
    pub override_decl: Id,
    pub constructor: Id,
    pub constructor_decl: Id,
}

impl Added {
    /// How many entities a round adds.
    pub const SIZE: u32 = 7;

    /// Those of this tag that a round adds, from 0 on.
    pub fn of(tag: Tag, round: u32) -> Added {
        let first = round.saturating_mul(Added::SIZE);
        Added {
            class: nth(tag, first, 1),
            field: nth(tag, first, 2),
            method: nth(tag, first, 3),
            decl: nth(tag, first, 4),
            override_decl: nth(tag, first, 5),
            constructor: nth(tag, first, 6),
            constructor_decl: nth(tag, first, 7),
        }
    }
}

/// The identity so many after a number.
fn nth(tag: Tag, first: u32, after: u32) -> Id {
    Id {
        tag,
        num: first.saturating_add(after),
    }
}
