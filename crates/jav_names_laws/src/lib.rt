//! Laws of names in views with other keys: where classes and members are the same but for their keys, all names read alike.
//!
//! Keys are numbers in source files and identities in a program. The definitions stand in `specs/`; the calls here compute nothing, each
//! carries laws of them.
#![tactic(auto)]

ghost use Rattle.std.specs.Prelude.{ℕ};
ghost use Rattle.mol_base.specs.declared.ident.Id.{Id};
ghost use Rattle.jav_names.specs.UnitViews.{MemberKey};
ghost use Rattle.jav_names_laws.specs.Laws.{KeysAlike, KeysNumbered, LooksAlike, MatchingAlike, NumbersApart, StrangeFindNothing};

/// The law of views that are alike: all that names read as in one of them they read as in the other, but for keys.
#[tactic(auto, using(crate::proofs::LooksAlike::looks_alike))]
pub fn looks_alike()
    ensures of_units_in_programs { LooksAlike ℕ MemberKey Id Id }
    ensures of_programs_in_units { LooksAlike Id Id ℕ MemberKey }
{}

/// The law of views that differ in their keys alone: they are alike.
pub fn keys_alike()
    ensures of_units_in_programs { KeysAlike ℕ MemberKey Id Id }
    ensures of_programs_in_units { KeysAlike Id Id ℕ MemberKey }
{}

/// The law of views that match: where classes and members are the same in any order, and no two have one address, views are alike.
#[tactic(auto, using(crate::proofs::ViewsMatch::matching_alike))]
pub fn matching_alike()
    ensures of_units_in_programs { MatchingAlike ℕ MemberKey Id Id }
    ensures of_programs_in_units { MatchingAlike Id Id ℕ MemberKey }
{}

/// The laws of numbers in place of keys: no two have one, and comparing them is comparing the keys.
#[tactic(auto, using(crate::proofs::Numbered::numbers_apart, crate::proofs::Numbered::keys_numbered))]
pub fn keys_numbered()
    ensures numbers { NumbersApart }
    ensures keys { KeysNumbered Id }
{}

/// The law of keys that are those of nothing: from there up no field is found, and no method but those of `Object`.
#[tactic(auto, using(crate::proofs::Strange::strange_find_nothing))]
pub fn strange_find_nothing()
    ensures of_units { StrangeFindNothing ℕ MemberKey }
    ensures of_programs { StrangeFindNothing Id Id }
{}
