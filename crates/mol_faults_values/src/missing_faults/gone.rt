//! What is gone.
ghost use Rattle.std.specs.Prelude.{◌≡◌};
ghost use Rattle.mol_faults_rules.specs.Kept.{kept_fault};
ghost use Rattle.mol_faults_values.specs.missing_faults.Gone.{fault_of};

use mol_base::Id;
use mol_faults_rules::Fault;
use mol_values_types::Cell;

/// A cell, and something gone that it refers to.
#[derive(Clone, Copy, PartialEq, Eq, PartialOrd, Ord)]
pub(crate) struct Gone {
    pub at: Cell,
    pub target: Id,
}

/// This as a fault. It takes no memory.
pub(crate) fn fault_of(gone: &Gone) -> Fault
    ensures { kept_fault result ≡ fault_of gone.now }
{
    Fault::Missing(gone.at, gone.target)
}
