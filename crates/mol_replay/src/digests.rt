//! The digest of a base.
ghost use Rattle.std.specs.Prelude.{◌≡◌, IfOk};
ghost use Rattle.mol_spell_files.specs.Bundle.{digest_of};
ghost use Rattle.mol_table_rules.specs.Tidy.{tidy};

use mol_base::OutOfMemory;
use mol_spell_files::{digest_of_files, program_files};
use mol_spell_names::ProgramIndex;
use mol_table::Table;
use std::alloc::Global;

/// The digest of a program, by which a log says over which base it was recorded: SHA-256 (FIPS 180-4) of its files in the one layout, by
/// their paths, each as its path, LF, its length in decimal, LF and its bytes. `Err` is want of memory.
///
/// The table is tidied once, and the files are printed. The time is near-linear in their bytes, but for what names cost.
pub fn digest(alloc: Global, base: &Table) -> Result<[u8; 32], OutOfMemory>
    ensures { IfOk result (λ digest. digest ≡ digest_of base.now) }
{
    let tidied = base.tidy(alloc)?;
    digest_of_tidied(alloc, &tidied)
}

/// The digest of a program of which each value is tidied already.
fn digest_of_tidied(alloc: Global, tidied: &Table) -> Result<[u8; 32], OutOfMemory>
    requires { tidy tidied.now ≡ tidied.now }
    ensures { IfOk result (λ digest. digest ≡ digest_of tidied.now) }
{
    let program = ProgramIndex::new(alloc, tidied)?;
    digest_of_program(alloc, &program)
}

/// The digest of a program of which each value is tidied already, by its indexes.
fn digest_of_program(alloc: Global, program: &ProgramIndex<'_>) -> Result<[u8; 32], OutOfMemory>
    requires { tidy program.now ≡ program.now }
    ensures { IfOk result (λ digest. digest ≡ digest_of program.now) }
{
    let files = program_files(alloc, program)?;
    digest_of_files(alloc, files.texts.as_slice())
}
