//! Readings of trees do not depend on keys: where names read alike but for keys and identities, so do types, expressions and bodies. So
//! what reads trees by numbers, as those of source files, reads them in a program too.
//!
//! The definitions stand in `specs/`; the calls here compute nothing, each carries laws of them.
#![tactic(auto)]

ghost use Rattle.std.specs.Prelude.{ℕ};
ghost use Rattle.mol_base.specs.declared.ident.Id.{Id};
ghost use Rattle.jav_names.specs.UnitViews.{MemberKey};
ghost use Rattle.mol_resolve_keys.specs.Laws.{ReadingsAlike};
ghost use Rattle.mol_resolve_keys.specs.NumberLaws.{ProgramsNumbered, RenamedAsThemselves};

/// The law of readings: readers that are alike but for keys and identities read trees as the same but for identities, with the same faults
/// at the same places.
#[tactic(auto, using(crate::proofs::ReadingsAlike::readings_alike))]
pub fn readings_alike()
    ensures of_units_in_programs { ReadingsAlike ℕ MemberKey Id Id }
    ensures of_programs_in_units { ReadingsAlike Id Id ℕ MemberKey }
{}

/// The law of the identity: renaming each identity as itself changes no type, expression or block.
#[tactic(auto, using(crate::proofs::RenamedAsThemselves::renamed_as_themselves))]
pub fn renamed_as_themselves()
    ensures { RenamedAsThemselves }
{}

/// The law of numbers in place of identities: a place in a program and the same place with numbers are alike, so that trees are read as the
/// same, with the same faults.
#[tactic(auto, using(crate::proofs::ReadByNumbers::programs_numbered))]
pub fn programs_numbered()
    ensures { ProgramsNumbered }
{}
