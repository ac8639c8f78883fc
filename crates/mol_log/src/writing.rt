//! A log as bytes.
ghost use Rattle.std.specs.Prelude.{◌≡◌, ◌<◌, ◌≤◌, ◌++◌, false, length, All, OnOk, IfOk};
ghost use Rattle.serde_json.specs.Data.{depth};
ghost use Rattle.serde_json.specs.Read.{max_depth};
ghost use Rattle.serde_json.specs.View.{view};
ghost use Rattle.serde_json.specs.Written.{has_float};
ghost use Rattle.mol_base.specs.Limits.{most};
ghost use Rattle.mol_base.specs.declared.limit.Which.TheVariants.{LogBytes};
ghost use Rattle.mol_log_rows.specs.lines.Headers.{header_data};
ghost use Rattle.mol_log.specs.Form.{IsLogText, header_of};
ghost use Rattle.mol_log.specs.Written.{IsReadBack, entry_data, entry_text, line_text, written};

use crate::Log;
use crate::entries::Entry;
use crate::objects::entry_value;
use mol_base::{List, OutOfMemory};
use mol_log_rows::header_value;
use serde_json::Value;
use std::alloc::Global;

/// The written form of a log: a line for the header and a line for each entry, each the compact text of its
/// object with the keys in the order of their bytes (RFC 8259), and LF. The time grows with the bytes, and the value of one
/// line at a time is in memory.
pub fn write_log(alloc: Global, log: &Log) -> Result<List<u8>, OutOfMemory>
    ensures text { IfOk result (λ bytes. bytes ≡ written log.now) }
    // What is written spells the log, where it is no longer than a log may be.
    ensures form { IfOk result (λ bytes. length bytes ≤ most LogBytes → ∥ IsLogText bytes log.now ∥₁) }
{
    bytes_fit(&log.base_digest);
    let mut text = Vec::new(alloc);
    add_header(alloc, &mut text, log)?;
    for entry in log.entries.items() {
        add_entry(alloc, &mut text, entry)?;
    }
    Ok(List::from_vec(text))
}

/// Nothing: the items of a digest are 32 bytes. Of an array a walk alone says so, and it is compiled away.
#[inline]
fn bytes_fit(digest: &[u8; 32])
    ensures { (length digest.now ≡ 32) × All (λ b. b < 256) digest.now }
{
    'bytes: for i in 0..32 {
        let _ = digest[i];
    }
}

/// Adds the line of the header. It is read as the header's object, whatever its number.
fn add_header(alloc: Global, text: &mut Vec<u8>, log: &Log) -> Result<(), OutOfMemory>
    ensures text { OnOk result (text.new.items ≡ text.old.items ++ line_text (header_data (header_of log.now))) }
    ensures read { OnOk result (IsReadBack (header_data (header_of log.now))) }
{
    let header = header_value(alloc, &log.base_digest, log.tags.items())?;
    add_line(alloc, text, &header)
}

/// Adds the line of an entry. It is read as the entry's object, whatever its number.
fn add_entry(alloc: Global, text: &mut Vec<u8>, entry: &Entry) -> Result<(), OutOfMemory>
    ensures text { OnOk result (text.new.items ≡ text.old.items ++ entry_text entry.now) }
    ensures read { OnOk result (IsReadBack (entry_data entry.now)) }
{
    let value = entry_value(alloc, entry)?;
    add_line(alloc, text, &value)
}

/// Adds a value's compact text and LF. The value has no float, and nests at most 127 deep.
#[tactic(auto, unfolding(crate::specs::Written::line_text))]
fn add_line(alloc: Global, text: &mut Vec<u8>, value: &Value) -> Result<(), OutOfMemory>
    requires whole { has_float (view value.now) ≡ false }
    requires deep { depth (view value.now) ≤ max_depth }
    ensures text { OnOk result (text.new.items ≡ text.old.items ++ line_text (view value.now)) }
    ensures read { OnOk result (IsReadBack (view value.now)) }
{
    let line = value.to_string(alloc)?;
    text.extend_from_slice(line.as_bytes())?;
    text.push(b'\n')?;
    Ok(())
}
