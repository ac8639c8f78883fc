//! What names in Java sources read as: the rules, over a view of classes and members; types as the rules see them; and sorted lists in
//! which names are looked up.
//!
//! The rules are definitions in `specs/`, which the contracts of the crates above cite. The calls of this file compute nothing: each
//! carries laws of the rules.
#![tactic(auto)]

ghost use Rattle.std.specs.Prelude.{ℕ};
ghost use Rattle.mol_base.specs.declared.ident.Id.{Id};
ghost use Rattle.jav_names.specs.Laws.{NamesAnswered, NamesCut, NamesDecided, TypesAnswered, TypesCompared, UnitsViewed};
ghost use Rattle.jav_names.specs.Standing.{AncestorsKnown, NamesStand, TypesStand};
ghost use Rattle.jav_names.specs.UnitViews.{MemberKey};

pub mod id_index;
pub mod index;
mod seen;

pub use id_index::add_entry;
pub use index::Spelling;
pub use seen::{SeenType, StaticType};

/// The laws of the rules: each has exactly one answer, over source files and over programs, which is what its function finds. A type as
/// written is what its parts read as.
#[tactic(auto, using(crate::proofs::NamesAnswered::types_answered, crate::proofs::NamesAnswered::names_answered))]
pub fn names_answered()
    ensures types_of_units { TypesAnswered ℕ }
    ensures names_of_units { NamesAnswered ℕ MemberKey }
    ensures types_of_programs { TypesAnswered Id }
    ensures names_of_programs { NamesAnswered Id Id }
{}

/// Whether two types are equal: the test, over source files and over programs, and that two equal types are one.
#[tactic(auto, using(crate::proofs::EqualTypes::types_compared))]
pub fn types_compared()
    ensures of_units { TypesCompared ℕ }
    ensures of_programs { TypesCompared Id }
{}

/// The laws of ancestors: those of a class are what its function says, classes of the view, and all that going up comes to.
#[tactic(auto, using(crate::proofs::AncestorsFound::ancestors_known))]
pub fn ancestors_known()
    ensures of_units { AncestorsKnown ℕ MemberKey }
    ensures of_programs { AncestorsKnown Id Id }
{}

/// What a name is found to be stands in the view: classes, fields and declarations in its lists, and the owner of a member is the class
/// that was asked or an ancestor of it.
#[tactic(auto, using(crate::proofs::FoundNames::types_stand, crate::proofs::FoundNames::names_stand))]
pub fn found_stands()
    ensures types_of_units { TypesStand ℕ }
    ensures names_of_units { NamesStand ℕ MemberKey }
    ensures types_of_programs { TypesStand Id }
    ensures names_of_programs { NamesStand Id Id }
{}

/// What may be found, outside or not found is exactly one of the three.
#[tactic(auto, using(crate::proofs::NamesAnswered::names_decided))]
pub fn names_decided()
    ensures of_units { NamesDecided ℕ MemberKey }
    ensures of_programs { NamesDecided Id Id }
{}

/// The laws of the view of source files: it ascends by its keys, so that the rules have exactly one answer over it, and the class of
/// each file is one of it, so that what names are found to be stands in it.
#[tactic(auto, using(crate::proofs::UnitsViewed::units_viewed))]
pub fn units_viewed()
    ensures { UnitsViewed }
{}

/// The laws of names with dots: cutting a text at its dots and joining names by dots undo each other.
#[tactic(auto, using(crate::proofs::CutNames::names_cut))]
pub fn names_cut()
    ensures { NamesCut }
{}
