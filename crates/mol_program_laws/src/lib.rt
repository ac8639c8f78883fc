//! Files are the sources of a program, or something is wrong with them first.
//!
//! The call here computes nothing: it carries the law of the definitions of `mol_program`.
#![tactic(auto)]

ghost use Rattle.mol_program_laws.specs.Laws.{FilesTold};

use std::alloc::Global;

/// The law of files: they are the sources of one program in plain form, which keeps the rules of programs, or one thing is wrong with them
/// first, at one place; and not both. The rules of the parser are over an allocator, of which nothing is asked.
pub fn files_told(alloc: Global)
    ensures { FilesTold }
{
    let _ = alloc;
}
