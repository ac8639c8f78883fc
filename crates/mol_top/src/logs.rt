//! Logs of a command: each is read whole, and what it spells looked at, before the next file is read. A log may then not replay.
ghost use Rattle.std.specs.Prelude.{◌≡◌, IfErr, IfOk, None, OnOk};
ghost use Rattle.mol_log.specs.Form.{IsLogText};
ghost use Rattle.mol_report_logs.specs.ReplayFaults.{replay_fault_text};
ghost use Rattle.mol_top.specs.Answers.{log_status as status_for};
ghost use Rattle.mol_top.specs.Carried.{Carries, IsInside, NoPath};
ghost use Rattle.mol_top.specs.Logs.{IsLogAt};
ghost use Rattle.mol_top.specs.Outside.{IfTold, OnlyReads, store};
ghost use Rattle.mol_top.specs.ReadLogs.{CarriesLog, IsLogStopped, IsRefusalOfLog, IsStoppedAt, RefusesOut};
ghost use Rattle.mol_top.specs.Refusals.{out_refusal};
ghost use Rattle.mol_top.specs.RefusedLogs.{IsRefusalOfFault, IsRefusalWith};
ghost use Rattle.mol_top.specs.Report.{log_line as log_line_of};
ghost use Rattle.mol_top.specs.Steps.{Only};

use crate::refusal::{Line, Refusal};
use crate::report::log_line;
use crate::status::{LogCause, Status};
use crate::store::{check_out, read_input};
use mol_base::{OutOfMemory, Text};
use mol_log::{Log, read_log};
use mol_log_rows::LogFault;
use mol_outside::Files;
use mol_replay::ReplayFault;
use mol_report_logs::replay_fault_line;
use mol_table::Table;
use std::alloc::Global;

/// The log of this number, which is to be at the path.
///
/// Refuses, in this order, what the reading of a file refuses, the limits of a log, and what is wrong with its bytes first. The time is
/// linear in the bytes.
pub fn read_log_at<F: Files>(
    alloc: Global,
    which: u8,
    path: &Text,
    files: &mut F,
) -> Result<Log, Refusal>
    ensures only_reads { OnlyReads (store F.Files files.old) (store F.Files files.new) }
    ensures log { IfOk result (λ log. IfTold (F.holds files.old) (λ held. IsLogAt path.now held log)) }
    ensures stop { IfErr result (IsLogStopped which path.now (store F.Files files.old) (store F.Files files.new)) }
    ensures carries { IfErr result (λ refusal. CarriesLog path.now refusal.status) }
{
    match read_input(alloc, path, files) {
        Ok(bytes) => log_of(alloc, which, bytes.items()),
        Err(fault) => Err(Refusal::of(alloc, Status::from(fault))),
    }
}

/// The log that these bytes spell.
fn log_of(alloc: Global, which: u8, bytes: &[u8]) -> Result<Log, Refusal>
    ensures log { IfOk result (IsLogText bytes.now) }
    ensures stop { IfErr result (IsRefusalOfLog which bytes.now) }
{
    match read_log(alloc, bytes) {
        Ok(log) => Ok(log),
        Err(fault) => Err(Refusal::of(alloc, log_status(which, fault))),
    }
}

/// What is answered to what is wrong with a log.
fn log_status(which: u8, fault: LogFault) -> Status
    ensures { result ≡ status_for which fault }
{
    match fault {
        LogFault::OutOfMemory => Status::OutOfMemory,
        LogFault::TooLong(limit, number) => Status::Limit(limit, number),
        fault => Status::LogRefused(which, LogCause::Form(fault)),
    }
}

/// Refuses a folder in which files are to be written, where it is in use.
pub fn refuse_used<F: Files>(alloc: Global, out: &Text, files: &mut F) -> Result<(), Refusal>
    ensures only_reads { OnlyReads (store F.Files files.old) (store F.Files files.new) }
    ensures free { OnOk result (IfTold (F.holds files.old) (λ held. out_refusal out.now held ≡ None)) }
    ensures stop { IfErr result (IsStoppedAt out.now (store F.Files files.old) (store F.Files files.new) (RefusesOut out.now)) }
    ensures carries { IfErr result (λ refusal. Carries (Only out.now) NoPath (IsInside out.now) refusal.status) }
{
    match check_out(alloc, out, files) {
        Ok(()) => Ok(()),
        Err(fault) => Err(Refusal::of(alloc, Status::from(fault))),
    }
}

/// The refusal of the log of this number for a fault of its replay on a base. Its line may name addresses of the base.
pub fn replay_refusal(alloc: Global, base: &Table, which: u8, fault: ReplayFault) -> Refusal
    ensures { IsRefusalOfFault base.now which fault result }
{
    match replay_line(alloc, base, which, &fault) {
        Ok(line) => refusal_with(which, fault, line),
        Err(OutOfMemory) => Refusal::out_of_memory(),
    }
}

/// The refusal of the log of this number for a fault, with its line.
fn refusal_with(which: u8, fault: ReplayFault, line: Vec<u8>) -> Refusal
    ensures { IsRefusalWith which fault line.items result }
{
    match fault {
        ReplayFault::OutOfMemory => Refusal::out_of_memory(),
        fault => Refusal {
            status: Status::LogRefused(which, LogCause::Replay(fault)),
            line: Line::Made(line),
        },
    }
}

/// The line of the log of this number, which does not replay on a base.
fn replay_line(
    alloc: Global,
    base: &Table,
    which: u8,
    fault: &ReplayFault,
) -> Result<Vec<u8>, OutOfMemory>
    ensures { IfOk result (λ line. line.items ≡ log_line_of which (replay_fault_text base.now fault.now)) }
{
    let cause = replay_fault_line(alloc, base, fault)?;
    log_line(alloc, which, cause.items())
}
