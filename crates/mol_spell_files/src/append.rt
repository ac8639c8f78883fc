//! Numbers in bytes that are made piece by piece.
ghost use Rattle.std.specs.Prelude.{◌≡◌, ◌++◌, OnOk};
ghost use Rattle.std.specs.Fmt.{decimal};

use mol_base::OutOfMemory;
use std::alloc::Global;

/// Appends the number in decimal, in ASCII digits without zeros before it.
///
/// `Err` is want of memory; what `out` holds then is not said.
pub fn push_number(alloc: Global, out: &mut Vec<u8>, number: u64) -> Result<(), OutOfMemory>
    ensures { OnOk result (out.new.items ≡ out.old.items ++ decimal number) }
{
    let digits = format!(in alloc; "{number}")?;
    out.extend_from_slice(digits.as_bytes())?;
    Ok(())
}
