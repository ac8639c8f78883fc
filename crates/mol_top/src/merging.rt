//! What `merge` writes: the program that two logs leave together of their base, and the log of both; or how they conflict.
ghost use Rattle.std.specs.Prelude.{◌≡◌, IfErr, IfOk};
ghost use Rattle.mol_base.specs.Files.{file_pairs};
ghost use Rattle.mol_log_rules.specs.Living.{HasNoDead};
ghost use Rattle.mol_table_rules.specs.Tidy.{tidy};
ghost use Rattle.mol_top.specs.Carried.{Carries, CarriesOwn, NoPath, WritesInside, WritesOwn};
ghost use Rattle.mol_top.specs.Command.{merge_paths};
ghost use Rattle.mol_top.specs.MergeWork.{IsAnswerWork, IsConflictsWork, IsMadeOver, IsMadeWith, IsMergeWork, IsMergedWork};
ghost use Rattle.mol_top.specs.MergeWork.{IsRefusalOfMerge, IsRefusalOfMergeFault, IsStoppedOver, IsStoppedWith};
ghost use Rattle.mol_top.specs.Output.{IsReady};
ghost use Rattle.mol_top.specs.Outside.{IfTold, OnlyReads, store};
ghost use Rattle.mol_top.specs.Prepared.{IsStopped, Prepares};
ghost use Rattle.mol_top.specs.Refused.{IsForMemory};
ghost use Rattle.mol_top.specs.Words.{merge_command, merge_words};

use crate::clean_base::{read_base_program, refuse_unclean_table, rules};
use crate::command::MergeWords;
use crate::logs::{read_log_at, refuse_used, replay_refusal};
use crate::output::{Work, below, failure_lines};
use crate::refusal::Refusal;
use crate::report::merge_report;
use crate::status::{LogCause, Status};
use crate::store::join;
use mol_base::{File, List, OutOfMemory, Text};
use mol_faults_rules::Conflict;
use mol_log::{Log, write_log};
use mol_merge::{MergeFault, Merged, Outcome, merge};
use mol_outside::Files;
use mol_report_conflicts::conflict_lines;
use mol_table::Table;
use std::alloc::Global;

/// All that `merge` writes and prints.
///
/// Refuses, in this order, what `read_base_program` refuses, a program that is not clean, for its first fault, what `read_log_at` refuses
/// of the first log and then of the second, a folder OUT that is in use, and what `merge` refuses. The time is near-linear in the bytes of
/// the sources, of the logs and of the files, but for what names cost.
pub fn prepare_merge<F: Files>(
    alloc: Global,
    words: MergeWords<'_>,
    files: &mut F,
) -> Result<Work, Refusal>
    ensures only_reads { OnlyReads (store F.Files files.old) (store F.Files files.new) }
    ensures ready { IfOk result IsReady }
    ensures work { IfOk result (Prepares (merge_command words.entry) (store F.Files files.old)) }
    ensures inside { IfOk result (WritesOwn (merge_paths (merge_words words.entry))) }
    ensures stop { IfErr result (IsStopped (merge_command words.entry) (store F.Files files.old) (store F.Files files.new)) }
    ensures carries { IfErr result (λ refusal. CarriesOwn (merge_paths (merge_words words.entry)) refusal.status) }
{
    let base = read_base_program(alloc, words.base, files)?;
    rules(&base.table);
    refuse_unclean_table(alloc, &base.table)?;
    logs_work(alloc, &base.table, words, files)
}

/// All that is written and printed of two logs over a base.
fn logs_work<F: Files>(
    alloc: Global,
    base: &Table,
    words: MergeWords<'_>,
    files: &mut F,
) -> Result<Work, Refusal>
    requires tidied { tidy base.now ≡ base.now }
    requires alive { HasNoDead base.now }
    ensures only_reads { OnlyReads (store F.Files files.old) (store F.Files files.new) }
    ensures ready { IfOk result IsReady }
    ensures work { IfOk result (λ work. IfTold (F.holds files.old) (λ held. IsMadeOver (merge_words words.entry) base.now held work)) }
    ensures inside { IfOk result (WritesInside words.entry.out.now) }
    ensures stop { IfErr result (IsStoppedOver (merge_words words.entry) base.now (store F.Files files.old) (store F.Files files.new)) }
    ensures carries { IfErr result (λ refusal. CarriesOwn (merge_paths (merge_words words.entry)) refusal.status) }
{
    let first = read_log_at(alloc, 1, words.first, files)?;
    second_work(alloc, base, &first, words, files)
}

/// All that is written and printed of a first log that is read, and a second one.
fn second_work<F: Files>(
    alloc: Global,
    base: &Table,
    first: &Log,
    words: MergeWords<'_>,
    files: &mut F,
) -> Result<Work, Refusal>
    requires tidied { tidy base.now ≡ base.now }
    requires alive { HasNoDead base.now }
    ensures only_reads { OnlyReads (store F.Files files.old) (store F.Files files.new) }
    ensures ready { IfOk result IsReady }
    ensures work { IfOk result (λ work. IfTold (F.holds files.old) (λ held.
        IsMadeWith (merge_words words.entry) base.now first.now held work)) }
    ensures inside { IfOk result (WritesInside words.entry.out.now) }
    ensures stop { IfErr result (IsStoppedWith (merge_words words.entry) base.now first.now
        (store F.Files files.old) (store F.Files files.new)) }
    ensures carries { IfErr result (λ refusal. CarriesOwn (merge_paths (merge_words words.entry)) refusal.status) }
{
    let second = read_log_at(alloc, 2, words.second, files)?;
    refuse_used(alloc, words.out, files)?;
    merge_work(alloc, words.out, base, first, &second)
}

/// All that is written and printed of two logs that are read.
fn merge_work(
    alloc: Global,
    out: &Text,
    base: &Table,
    first: &Log,
    second: &Log,
) -> Result<Work, Refusal>
    requires tidied { tidy base.now ≡ base.now }
    requires alive { HasNoDead base.now }
    ensures ready { IfOk result IsReady }
    ensures work { IfOk result (IsMergeWork out.now base.now first.now second.now) }
    ensures inside { IfOk result (WritesInside out.now) }
    ensures stop { IfErr result (IsRefusalOfMerge base.now first.now second.now) }
    ensures carries { IfErr result (λ refusal. Carries NoPath NoPath NoPath refusal.status) }
{
    match merge(alloc, base, first, second) {
        Ok(outcome) => answer_work(alloc, out, base, outcome),
        Err(fault) => Err(merge_refusal(alloc, base, fault)),
    }
}

/// The refusal of two logs for a fault. Its line may name addresses of the base.
fn merge_refusal(alloc: Global, base: &Table, fault: MergeFault) -> Refusal
    ensures { IsRefusalOfMergeFault base.now fault result }
{
    match fault {
        MergeFault::First(fault) => replay_refusal(alloc, base, 1, fault),
        MergeFault::Second(fault) => replay_refusal(alloc, base, 2, fault),
        MergeFault::SharedTag(tag) => {
            Refusal::of(alloc, Status::LogRefused(2, LogCause::SharedTag(tag)))
        }
        MergeFault::Limit(which, number) => Refusal::of(alloc, Status::Limit(which, number)),
        MergeFault::OutOfMemory => Refusal::out_of_memory(),
    }
}

/// All that is written and printed of what two logs come to, unless memory runs out.
fn answer_work(alloc: Global, out: &Text, base: &Table, outcome: Outcome) -> Result<Work, Refusal>
    ensures work { IfOk result (IsAnswerWork out.now base.now outcome) }
    ensures memory { IfErr result IsForMemory }
{
    match outcome_work(alloc, out, base, outcome) {
        Ok(work) => Ok(work),
        Err(OutOfMemory) => Err(Refusal::out_of_memory()),
    }
}

/// What is written and printed of what two logs come to.
fn outcome_work(
    alloc: Global,
    out: &Text,
    base: &Table,
    outcome: Outcome,
) -> Result<Work, OutOfMemory>
    ensures { IfOk result (IsAnswerWork out.now base.now outcome) }
{
    match outcome {
        Outcome::Merged(Merged { files, log, .. }) => {
            merged_work(alloc, out, files.into_vec(), &log)
        }
        Outcome::Conflicts(list) => conflicts_work(alloc, base, &list),
    }
}

/// What is written and printed where two logs merge: these files below a folder, and the log of both.
fn merged_work(alloc: Global, out: &Text, files: Vec<File>, log: &Log) -> Result<Work, OutOfMemory>
    ensures { IfOk result (IsMergedWork out.now (file_pairs files.items) log.now) }
{
    let report = merge_report(alloc, files.len(), log.entries.items().len())?;
    let mut files = below(alloc, out, files)?;
    let path = join(alloc, out, &Text::from_str(alloc, "merged.mol")?)?;
    let bytes = write_log(alloc, log)?;
    files.push(File { path, bytes })?;
    let failures = failure_lines(alloc, files.as_slice())?;
    Ok(Work {
        conflicts: 0,
        files,
        failures,
        report,
    })
}

/// What is printed where two logs conflict.
fn conflicts_work(alloc: Global, base: &Table, list: &List<Conflict>) -> Result<Work, OutOfMemory>
    ensures { IfOk result (IsConflictsWork base.now list.now) }
{
    let report = conflict_lines(alloc, base, list)?;
    Ok(Work {
        conflicts: list.items().len() as u64,
        files: Vec::new(alloc),
        failures: Vec::new(alloc),
        report: report.into_vec(),
    })
}
