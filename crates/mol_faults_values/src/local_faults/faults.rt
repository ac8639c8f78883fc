//! The faults of locals.
ghost use Rattle.std.specs.Prelude.{◌≡◌, IfOk, map};
ghost use Rattle.mol_faults_rules.specs.Kept.{kept_fault};
ghost use Rattle.mol_faults_rules.specs.OfKind.{AreAllOfKind};
ghost use Rattle.mol_faults_values.specs.local_faults.Clashing.{fault_of};

use crate::local_faults::clash::{Clash, fault_of};
use crate::local_faults::clashing::clashes_among;
use mol_base::{List, OutOfMemory, in_order};
use mol_faults_rules::Fault;
use mol_table::Table;
use std::alloc::Global;

/// The faults of locals of a program (JLS 6.4), in order: in each declaration that lives, the names with which a local of its body is
/// declared in the scope of a local or a parameter of this name, and the names that two parameters of its method have. The time is
/// near-linear in the size of the bodies, whatever their blocks hold. `Err` is want of memory.
pub fn local_clash(alloc: Global, table: &Table) -> Result<List<Fault>, OutOfMemory>
    ensures { IfOk result (λ faults. AreAllOfKind table.now 6 faults) }
{
    let found = clashes_among(alloc, table, table.ids())?;
    let clashes = in_order(found);
    faults_of(alloc, clashes.as_slice())
}

/// The clashes as faults.
fn faults_of(alloc: Global, clashes: &[Clash]) -> Result<List<Fault>, OutOfMemory>
    ensures { IfOk result (λ faults. map kept_fault faults ≡ map fault_of clashes.now) }
{
    let mut faults = List::new(alloc);
    for clash in clashes {
        let fault = fault_of(alloc, clash)?;
        faults.add(fault)?;
    }
    Ok(faults)
}
