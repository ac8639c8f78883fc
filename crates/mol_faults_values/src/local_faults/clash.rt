//! A name that clashes.
ghost use Rattle.std.specs.Prelude.{◌≡◌, IfOk};
ghost use Rattle.mol_faults_rules.specs.Kept.{kept_fault};
ghost use Rattle.mol_faults_values.specs.local_faults.Clashing.{fault_of};

use mol_base::{Id, OutOfMemory, Text};
use mol_faults_rules::Fault;
use mol_values_types::{Cell, Slot};
use std::alloc::Global;

/// A declaration of a method, and a name that is declared in it where it is in scope already.
#[derive(PartialEq, Eq, PartialOrd, Ord, Drop)]
pub(crate) struct Clash {
    pub declaration: Id,
    pub name: Text,
}

/// The clash as a fault. `Err` is want of memory.
pub(crate) fn fault_of(alloc: Global, clash: &Clash) -> Result<Fault, OutOfMemory>
    ensures { IfOk result (λ fault. kept_fault fault ≡ fault_of clash.now) }
{
    let at = Cell {
        id: clash.declaration,
        slot: Slot::Body,
    };
    Ok(Fault::LocalClash(at, clash.name.copy(alloc)?))
}
