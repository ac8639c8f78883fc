//! The files that a program is spelled as, as trees that can be printed.
//!
//! The definitions stand in `specs/`, and the contracts of the crates above cite them. The call here computes nothing: it carries the
//! laws of the definitions.
#![tactic(auto)]

ghost use Rattle.mol_spell_laws.specs.PrintableFiles.{FilesPrintable};

/// The law of printable files: each file that a program is spelled as is a tree that the layout can print, with no parentheses in it,
/// and within the limit of number, where the program keeps the rules of programs and is clean; and so is each file of any program that keeps
/// them in which `super(..)` stands in constructors alone.
#[tactic(auto, using(crate::proofs::Files::files_printable))]
pub fn files_printable()
    ensures { FilesPrintable }
{}
