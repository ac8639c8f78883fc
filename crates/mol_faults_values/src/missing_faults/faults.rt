//! The faults of what is gone.
ghost use Rattle.std.specs.Prelude.{◌≡◌, IfOk, map};
ghost use Rattle.mol_faults_rules.specs.Kept.{kept_fault};
ghost use Rattle.mol_faults_rules.specs.OfKind.{AreAllOfKind};
ghost use Rattle.mol_faults_values.specs.missing_faults.Gone.{fault_of};
ghost use Rattle.mol_table_rules.specs.Tidy.{tidy};

use crate::missing_faults::collected::gone_in_all;
use crate::missing_faults::gone::{Gone, fault_of};
use mol_base::{List, OutOfMemory, in_order};
use mol_faults_rules::Fault;
use mol_table::Table;
use std::alloc::Global;

/// The faults of a program that cells of what lives refer to what is gone, in order. The second table is the first one, tidied: a call
/// refers to nothing by an argument for a parameter that its method has no more. The time is near-linear in the size of the program, but
/// that a parameter is looked for among those of its method, of which there are at most 255. `Err` is want of memory.
pub fn missing(alloc: Global, table: &Table, tidied: &Table) -> Result<List<Fault>, OutOfMemory>
    requires { tidied.now ≡ tidy table.now }
    ensures { IfOk result (λ faults. AreAllOfKind table.now 4 faults) }
{
    let found = gone_in_all(alloc, table, tidied, table.ids())?;
    let gone = in_order(found);
    faults_of(alloc, gone.as_slice())
}

/// These as faults.
fn faults_of(alloc: Global, gone: &[Gone]) -> Result<List<Fault>, OutOfMemory>
    ensures { IfOk result (λ faults. map kept_fault faults ≡ map fault_of gone.now) }
{
    let mut faults = List::new(alloc);
    for target in gone {
        faults.add(fault_of(target))?;
    }
    Ok(faults)
}
