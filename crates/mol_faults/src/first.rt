//! The first fault of a program.
ghost use Rattle.std.specs.Prelude.{◌≡◌, IfOk, map, option_map};
ghost use Rattle.mol_faults_rules.specs.Kept.{kept_fault};
ghost use Rattle.mol_faults.specs.First.{IsFirst, first_of};
ghost use Rattle.mol_table_rules.specs.Tidy.{tidy};

use crate::all::{all_of, faults};
use mol_base::OutOfMemory;
use mol_faults_rules::Fault;
use mol_spell_names::ProgramIndex;
use mol_table::Table;
use std::alloc::Global;

/// The first of all faults of a program, in their order: the one to be told where a program is refused. `None` comes exactly where the
/// program is clean, and `Err` for want of memory. The time is that of finding all faults.
pub fn first_fault(alloc: Global, table: &Table) -> Result<Option<Fault>, OutOfMemory>
    ensures { IfOk result (λ first. IsFirst table.now (option_map kept_fault first)) }
{
    Ok(first_of(faults(alloc, table)?.into_vec()))
}

/// The first fault of a program of which each value is tidied already, as each program is that sources read as. The answer is that of
/// `first_fault`, and the table is not copied for it.
pub fn first_fault_of_tidied(
    alloc: Global,
    program: &ProgramIndex<'_>,
) -> Result<Option<Fault>, OutOfMemory>
    requires { tidy program.now ≡ program.now }
    ensures { IfOk result (λ first. IsFirst program.now (option_map kept_fault first)) }
{
    Ok(first_of(all_of(alloc, program.table(), program)?))
}

/// The first of these, if there is one.
fn first_of(faults: Vec<Fault>) -> Option<Fault>
    ensures { option_map kept_fault result ≡ first_of (map kept_fault faults.items) }
{
    faults.into_iter().next()
}
