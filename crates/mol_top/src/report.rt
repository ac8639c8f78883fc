//! What a run prints.
ghost use Rattle.std.specs.Prelude.{◌≡◌, ◌++◌, ◌∷◌, [], codes, IfOk, OnOk};
ghost use Rattle.std.specs.Fmt.{decimal};
ghost use Rattle.mol_top.specs.Report.{base_line as base_line_of, check_report as check_report_of, fmt_report as fmt_report_of};
ghost use Rattle.mol_report_logs.specs.Limits.{limit_text};
ghost use Rattle.mol_report_logs.specs.LogFaults.{log_fault_text};
ghost use Rattle.mol_report_logs.specs.ReplayFaults.{plain_fault_text};
ghost use Rattle.mol_top.specs.Report.{cause_line as cause_line_of, fault_text, log_line as log_line_of, merge_report as merge_report_of};
ghost use Rattle.mol_top.specs.Report.{refusal_line as refusal_line_of, source_text};

use crate::status::{BaseFault, LogCause, Status};
use mol_base::{OutOfMemory, Place, Tag, Text, Which};
use mol_log_rows::LogFault;
use mol_program::SourceFault;
use mol_replay::ReplayFault;
use mol_report_logs::{limit_word, log_fault_line, plain_fault_line};
use mol_spell_files::push_number;
use std::alloc::Global;

/// A line for each command.
pub const USAGE: &[u8] =
    b"usage: molref check BASE\nusage: molref fmt BASE OUT\nusage: molref ids BASE\nusage: molref replay BASE LOG OUT\nusage: molref merge BASE LOG1 LOG2 OUT\n";

/// The report of so many files that are a program.
pub fn check_report(alloc: Global, files: usize) -> Result<Vec<u8>, OutOfMemory>
    ensures { IfOk result (λ report. report.items ≡ check_report_of files) }
{
    let mut report = Vec::from_slice(alloc, b"clean ")?;
    push_number(alloc, &mut report, files as u64)?;
    report.push(b'\n')?;
    Ok(report)
}

/// The report of so many files that were written in the one layout.
pub fn fmt_report(alloc: Global, files: usize) -> Result<Vec<u8>, OutOfMemory>
    ensures { IfOk result (λ report. report.items ≡ fmt_report_of files) }
{
    let mut report = Vec::from_slice(alloc, b"files ")?;
    push_number(alloc, &mut report, files as u64)?;
    report.push(b'\n')?;
    Ok(report)
}

/// The report of a merge that wrote so many files and a log of so many entries.
pub fn merge_report(alloc: Global, files: usize, operations: usize) -> Result<Vec<u8>, OutOfMemory>
    ensures { IfOk result (λ report. report.items ≡ merge_report_of files operations) }
{
    let mut report = Vec::from_slice(alloc, b"merged\nfiles ")?;
    push_number(alloc, &mut report, files as u64)?;
    report.extend_from_slice(b"\noperations ")?;
    push_number(alloc, &mut report, operations as u64)?;
    report.push(b'\n')?;
    Ok(report)
}

/// The line of a refusal that names no address of a base; no byte where nothing is refused. Of a refusal that names one the line is made
/// where the base is at hand.
pub fn refusal_line(alloc: Global, status: &Status) -> Result<Vec<u8>, OutOfMemory>
    ensures { IfOk result (λ line. line.items ≡ refusal_line_of status.now) }
{
    match status {
        Status::Done | Status::Conflicts(_) => Ok(Vec::new(alloc)),
        Status::Usage => Ok(Vec::from_slice(alloc, USAGE)?),
        Status::BaseRefused(BaseFault::Source(place, fault)) => base_line(alloc, place, fault),
        Status::BaseRefused(BaseFault::Unclean(_)) => Ok(Vec::new(alloc)),
        Status::LogRefused(which, cause) => cause_line(alloc, *which, cause),
        Status::ReadFailed(path) => path_line(alloc, b"read-failed ", path),
        Status::Missing(path) => path_line(alloc, b"missing ", path),
        Status::WriteFailed(path) => path_line(alloc, b"write-failed ", path),
        Status::OutOfMemory => Ok(Vec::from_slice(alloc, b"out-of-memory\n")?),
        Status::OutInUse(path) => path_line(alloc, b"out-in-use ", path),
        Status::Limit(which, count) => limit_line(alloc, which, *count),
    }
}

/// A word, a path and LF.
fn path_line(alloc: Global, word: &[u8], path: &Text) -> Result<Vec<u8>, OutOfMemory>
    ensures { IfOk result (λ line. line.items ≡ word.now ++ path.now ++ 10 ∷ []) }
{
    let mut line = Vec::from_slice(alloc, word)?;
    line.extend_from_slice(path.bytes())?;
    line.push(b'\n')?;
    Ok(line)
}

/// The line of a base whose files are no program: a place in a file, and what is wrong there.
fn base_line(alloc: Global, place: &Place, fault: &SourceFault) -> Result<Vec<u8>, OutOfMemory>
    ensures { IfOk result (λ line. line.items ≡ base_line_of (source_text place.now fault.now)) }
{
    let mut line = Vec::from_slice(alloc, b"base ")?;
    push_fault(alloc, &mut line, place, fault)?;
    line.push(b'\n')?;
    Ok(line)
}

/// Appends a place in a file and what is wrong there.
fn push_fault(
    alloc: Global,
    out: &mut Vec<u8>,
    place: &Place,
    fault: &SourceFault,
) -> Result<(), OutOfMemory>
    ensures { OnOk result (out.new.items ≡ out.old.items ++ source_text place.now fault.now) }
{
    out.extend_from_slice(place.file.bytes())?;
    out.push(b':')?;
    push_number(alloc, out, u64::from(place.line))?;
    out.push(b':')?;
    push_number(alloc, out, u64::from(place.column))?;
    out.push(b' ')?;
    push_fault_name(out, fault)
}

/// Appends the name of a fault, and the part of Java that it refuses where it does.
fn push_fault_name(out: &mut Vec<u8>, fault: &SourceFault) -> Result<(), OutOfMemory>
    ensures { OnOk result (out.new.items ≡ out.old.items ++ fault_text fault.now) }
{
    out.extend_from_slice(fault.name().as_bytes())?;
    if let Some(feature) = fault.feature() {
        out.push(b' ')?;
        out.extend_from_slice(feature.name().as_bytes())?;
    }
    Ok(())
}

/// The line of a refused log; where it names addresses of a base it is not whole, and is made where the base is at hand.
fn cause_line(alloc: Global, which: u8, cause: &LogCause) -> Result<Vec<u8>, OutOfMemory>
    ensures { IfOk result (λ line. line.items ≡ cause_line_of which cause.now) }
{
    match cause {
        LogCause::Form(fault) => form_line(alloc, which, fault),
        LogCause::Replay(fault) => plain_line(alloc, which, fault),
        LogCause::SharedTag(tag) => shared_tag_line(alloc, which, tag),
    }
}

/// The line of bytes that are no log.
fn form_line(alloc: Global, which: u8, fault: &LogFault) -> Result<Vec<u8>, OutOfMemory>
    ensures { IfOk result (λ line. line.items ≡ log_line_of which (log_fault_text fault.now)) }
{
    let cause = log_fault_line(alloc, fault)?;
    log_line(alloc, which, cause.items())
}

/// The line of a log that does not replay, whole where it names no address of a base.
fn plain_line(alloc: Global, which: u8, fault: &ReplayFault) -> Result<Vec<u8>, OutOfMemory>
    ensures { IfOk result (λ line. line.items ≡ log_line_of which (plain_fault_text fault.now)) }
{
    let cause = plain_fault_line(alloc, fault)?;
    log_line(alloc, which, cause.items())
}

/// The line of a log that has the tag of the log before it.
fn shared_tag_line(alloc: Global, which: u8, tag: &Tag) -> Result<Vec<u8>, OutOfMemory>
    ensures { IfOk result (λ line. line.items ≡ log_line_of which (codes "shared-tag " ++ tag.now)) }
{
    let mut cause = Vec::from_slice(alloc, b"shared-tag ")?;
    cause.extend_from_slice(tag.bytes())?;
    log_line(alloc, which, cause.as_slice())
}

/// The line of a refused log: its number, and why.
pub fn log_line(alloc: Global, which: u8, cause: &[u8]) -> Result<Vec<u8>, OutOfMemory>
    ensures { IfOk result (λ line. line.items ≡ log_line_of which cause.now) }
{
    let mut line = Vec::from_slice(alloc, b"log ")?;
    push_number(alloc, &mut line, u64::from(which))?;
    line.push(b' ')?;
    line.extend_from_slice(cause)?;
    line.push(b'\n')?;
    Ok(line)
}

/// The line of a limit and the number that passes it.
fn limit_line(alloc: Global, which: &Which, count: u64) -> Result<Vec<u8>, OutOfMemory>
    ensures { IfOk result (λ line. line.items ≡ codes "limit " ++ limit_text which.now ++ 32 ∷ decimal count ++ 10 ∷ []) }
{
    let mut line = Vec::from_slice(alloc, b"limit ")?;
    line.extend_from_slice(limit_word(which).as_bytes())?;
    line.push(b' ')?;
    push_number(alloc, &mut line, count)?;
    line.push(b'\n')?;
    Ok(line)
}
