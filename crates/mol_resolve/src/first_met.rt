//! The fault for which a file is refused.
ghost use Rattle.std.specs.Prelude.{◌≡◌, None, Some, IfErr, OnOk, option_map};
ghost use Rattle.mol_resolve_faults.specs.ResolveFaults.{resolve_fault};

use mol_resolve_faults::{FirstFault, ResolveFault};

/// The first of the faults that were met in the file of this number, if one was. It takes no memory.
pub(crate) fn unless_met(faults: &FirstFault, unit: u32) -> Result<(), ResolveFault>
    ensures err { IfErr result (λ fault. option_map (resolve_fault unit) faults.now ≡ Some fault) }
    ensures ok { OnOk result (faults.now ≡ None) }
{
    match faults.fault(unit) {
        Some(fault) => Err(fault),
        None => Ok(()),
    }
}
