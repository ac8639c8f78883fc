//! Why a log does not replay, as text.
ghost use Rattle.std.specs.Prelude.{◌≡◌, ◌++◌, ◌∷◌, IfOk, codes};
ghost use Rattle.hex.specs.Hex.{encode_lower};
ghost use Rattle.mol_base.specs.Identity.{spelled_stamp};
ghost use Rattle.mol_faults_rules.specs.Kept.{kept_fault};
ghost use Rattle.mol_report.specs.FaultText.{fault_text};
ghost use Rattle.mol_report_logs.specs.OpFaults.{op_fault_text as op_fault_text_of};
ghost use Rattle.mol_report_logs.specs.ReplayFaults.{plain_fault_text, replay_fault_text};

use crate::op_faults::op_fault_text;
use mol_base::{List, OutOfMemory, Stamp};
use mol_faults_rules::Fault;
use mol_op::OpFault;
use mol_replay::ReplayFault;
use mol_report::fault_line;
use mol_table::Table;
use std::alloc::Global;

/// The text of why a log does not replay on a base, without a line end: the fault's name in lower-case words joined by `-`, and its
/// fields, a space before each. Digests are 64 lower-case hexadecimal digits, that of the base first. The identity of an operation that
/// does not apply is written alone; those of a fault of the program that the log leaves have their addresses in the base, or `added`.
/// ASCII but for names. `Err` is want of memory.
pub fn replay_fault_line(
    alloc: Global,
    base: &Table,
    fault: &ReplayFault,
) -> Result<List<u8>, OutOfMemory>
    ensures { IfOk result (λ text. text ≡ replay_fault_text base.now fault.now) }
{
    match fault {
        ReplayFault::NotClean(left) => not_clean(alloc, base, left),
        _ => plain_fault_line(alloc, fault),
    }
}

/// The same of a fault that names no address of the base, which then need not be at hand; no byte for `NotClean`. ASCII. `Err` is want
/// of memory.
pub fn plain_fault_line(alloc: Global, fault: &ReplayFault) -> Result<List<u8>, OutOfMemory>
    ensures { IfOk result (λ text. text ≡ plain_fault_text fault.now) }
{
    match fault {
        ReplayFault::BaseDiffers { have, want } => base_differs(alloc, have, want),
        ReplayFault::NotApplicable(stamp, why) => not_applicable(alloc, stamp, why),
        ReplayFault::NotClean(_) => Ok(List::new(alloc)),
        ReplayFault::OutOfMemory => out_of_memory(alloc),
    }
}

/// The digest of the base and that of the log.
fn base_differs(alloc: Global, have: &[u8; 32], want: &[u8; 32]) -> Result<List<u8>, OutOfMemory>
    ensures { IfOk result (λ text. text ≡ codes "base-differs " ++ encode_lower have.now ++ 32 ∷ encode_lower want.now) }
{
    let have = hex::encode(alloc, have)?;
    let want = hex::encode(alloc, want)?;
    let text = format!(in alloc; "base-differs {} {}", have.as_str(), want.as_str())?;
    Ok(List::from_vec(text.into_bytes()))
}

/// The entry that does not apply, and why.
fn not_applicable(alloc: Global, stamp: &Stamp, why: &OpFault) -> Result<List<u8>, OutOfMemory>
    ensures { IfOk result (λ text. text ≡ codes "not-applicable " ++ spelled_stamp stamp.now ++ 32 ∷ op_fault_text_of why.now) }
{
    let stamp = stamp.write(alloc)?;
    let why = op_fault_text(alloc, why)?;
    let text = format!(in alloc; "not-applicable {} {}", stamp.as_str(), why.as_str())?;
    Ok(List::from_vec(text.into_bytes()))
}

/// The fault of the program that the log leaves.
fn not_clean(alloc: Global, base: &Table, left: &Fault) -> Result<List<u8>, OutOfMemory>
    ensures { IfOk result (λ text. text ≡ codes "not-clean " ++ fault_text base.now (kept_fault left.now)) }
{
    let left = fault_line(alloc, base, left)?;
    let mut text = Vec::from_slice(alloc, b"not-clean ")?;
    text.extend_from_slice(left.items())?;
    Ok(List::from_vec(text))
}

/// What stands where there was no memory.
fn out_of_memory(alloc: Global) -> Result<List<u8>, OutOfMemory>
    ensures { IfOk result (λ text. text ≡ codes "out-of-memory") }
{
    Ok(List::from_vec(Vec::from_slice(alloc, b"out-of-memory")?))
}
