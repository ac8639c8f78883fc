//! What sources read as: the program that source files are, with each name in them by identity, or the faults for which they are none.
//!
//! The definitions stand in `specs/`, and the contracts of the crates above cite them. The calls here compute nothing: each carries
//! laws of the definitions.
#![tactic(auto)]

ghost use Rattle.mol_resolve_rules.specs.Laws.{FirstFaults, MethodsShared, NumbersApart, PlainForms, ProgramsViewed, ValuesThere};

/// The law of the view of a program: it ascends by its keys, so that the rules on names have exactly one answer over it.
#[tactic(auto, using(crate::proofs::ProgramsViewed::programs_viewed))]
pub fn programs_viewed()
    ensures { ProgramsViewed }
{}

/// The law of numbers: no two of the classes, members, methods and parameters of files have one.
#[tactic(auto, using(crate::proofs::NumbersApart::numbers_apart))]
pub fn numbers_apart()
    ensures { NumbersApart }
{}

/// The law of values: files without a fault say what each cell of their classes, members and methods is to hold.
#[tactic(auto, using(crate::proofs::ValuesFound::values_there))]
pub fn values_there()
    ensures { ValuesThere }
{}

/// The law of methods: where files have no fault, two declarations have one method exactly where they agree in name and number of
/// parameters, and a declaration of these stands in or above the classes of both.
#[tactic(auto, using(crate::proofs::OneMethod::methods_shared))]
pub fn methods_shared()
    ensures { MethodsShared }
{}

/// The laws of the first fault: files have none, or one that is the first, and where their paths differ no other is. Beside the
/// relations stand lists that hold exactly the faults of each file.
#[tactic(auto, using(crate::proofs::FirstFaults::first_faults))]
pub fn first_faults()
    ensures { FirstFaults }
{}

/// The laws of plain form: a program in it holds what the files say, and files read as at most one such program.
#[tactic(auto, using(crate::proofs::PlainForms::plain_forms))]
pub fn plain_forms()
    ensures { PlainForms }
{}
