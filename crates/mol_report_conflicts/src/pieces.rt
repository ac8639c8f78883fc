//! Numbers, values and stamps, each appended to a vector of bytes.
ghost use Rattle.std.specs.Prelude.{◌≡◌, ◌++◌, ◌∷◌, OnOk};
ghost use Rattle.std.specs.Fmt.{decimal};
ghost use Rattle.std.specs.List.{flat_map};
ghost use Rattle.mol_report_conflicts.specs.Conflicts.{stamp_text, stamps_text, value_text};

use mol_base::{OutOfMemory, Stamp};
use mol_log_objects::value_data;
use mol_values_types::Value;
use std::alloc::Global;

/// Appends a number in decimal.
pub(crate) fn push_number(
    alloc: Global,
    out: &mut Vec<u8>,
    number: usize,
) -> Result<(), OutOfMemory>
    ensures { OnOk result (out.new.items ≡ out.old.items ++ decimal number) }
{
    out.extend_from_slice(format!(in alloc; "{number}")?.as_bytes())?;
    Ok(())
}

/// Appends a space and the compact JSON of a value.
pub(crate) fn push_value(alloc: Global, out: &mut Vec<u8>, value: &Value) -> Result<(), OutOfMemory>
    ensures { OnOk result (out.new.items ≡ out.old.items ++ 32 ∷ value_text value.now) }
{
    let json = value_data(alloc, value)?;
    let text = json.to_string(alloc)?;
    out.push(b' ')?;
    out.extend_from_slice(text.as_bytes())?;
    Ok(())
}

/// Appends ` by` and the stamps.
pub(crate) fn push_stamps(
    alloc: Global,
    out: &mut Vec<u8>,
    stamps: &[Stamp],
) -> Result<(), OutOfMemory>
    ensures { OnOk result (out.new.items ≡ out.old.items ++ stamps_text stamps.now) }
{
    out.extend_from_slice(b" by")?;
    push_each(alloc, out, stamps)
}

/// Appends the stamps, a space before each.
fn push_each(alloc: Global, out: &mut Vec<u8>, stamps: &[Stamp]) -> Result<(), OutOfMemory>
    ensures { OnOk result (out.new.items ≡ out.old.items ++ flat_map stamp_text stamps.now) }
{
    for stamp in stamps {
        push_stamp(alloc, out, stamp)?;
    }
    Ok(())
}

/// Appends a space and a stamp.
fn push_stamp(alloc: Global, out: &mut Vec<u8>, stamp: &Stamp) -> Result<(), OutOfMemory>
    ensures { OnOk result (out.new.items ≡ out.old.items ++ stamp_text stamp.now) }
{
    let spelled = stamp.write(alloc)?;
    out.push(b' ')?;
    out.extend_from_slice(spelled.bytes())?;
    Ok(())
}
