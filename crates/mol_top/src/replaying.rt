//! What `replay` writes: the program that a log leaves of its base, as source files in the one layout.
ghost use Rattle.std.specs.Prelude.{◌≡◌, IfErr, IfOk, OnOk};
ghost use Rattle.mol_base.specs.Files.{ArePathsApart, AreSmall, file_pairs};
ghost use Rattle.mol_replay.specs.Replays.{Replays};
ghost use Rattle.mol_spell_files.specs.Bundle.{digest_of};
ghost use Rattle.mol_table_rules.specs.Program.{Program};
ghost use Rattle.mol_table_rules.specs.Tidy.{tidy};
ghost use Rattle.mol_top.specs.Answers.{store_status};
ghost use Rattle.mol_top.specs.Carried.{Carries, CarriesOwn, NoPath, WritesInside, WritesOwn};
ghost use Rattle.mol_top.specs.Command.{replay_paths};
ghost use Rattle.mol_top.specs.KeptBases.{AreSources};
ghost use Rattle.mol_top.specs.Output.{IsReady};
ghost use Rattle.mol_top.specs.Outside.{IfTold, OnlyReads, store};
ghost use Rattle.mol_top.specs.Prepared.{IsStopped, Prepares};
ghost use Rattle.mol_top.specs.ProgramWork.{IsFilesWork, StopsLarge};
ghost use Rattle.mol_top.specs.RefusedLogs.{IsRefusalOfFault};
ghost use Rattle.mol_top.specs.Replaying.{left_by};
ghost use Rattle.mol_top.specs.ReplayWork.{IsMadeOver, IsRefusalOfLimits, IsRefusalOfReplay};
ghost use Rattle.mol_top.specs.ReplayWork.{IsReplayStopped, IsReplayWork, IsStoppedOver};
ghost use Rattle.mol_top.specs.Words.{replay_command, replay_words};

use crate::clean_base::{clean_digest, rules};
use crate::command::ReplayWords;
use crate::fault::StoreFault;
use crate::formatting::files_work;
use crate::kept_base::{KeptBase, read_again, read_kept_base};
use crate::logs::{read_log_at, refuse_used, replay_refusal};
use crate::output::Work;
use crate::refusal::Refusal;
use crate::status::{LogCause, Status};
use mol_base::{File, OutOfMemory, Text};
use mol_faults_rules::Fault;
use mol_log::Log;
use mol_outside::Files;
use mol_replay::{ReplayFault, replay_tidied};
use mol_spell_names::ProgramIndex;
use mol_table::Table;
use std::alloc::Global;

/// All that `replay` writes and prints: the files of the program that LOG leaves of the program below BASE, below OUT.
///
/// Refuses, in this order, what `read_kept_base` refuses, a program that is not clean, for its first fault, what `read_log_at` refuses,
/// a folder OUT that is in use, a log that does not replay, and files that pass a limit. One table stands at a time: that of the base becomes
/// what the log leaves of it. The time is near-linear in the bytes of the sources, of the log and of the files, but for what names cost.
pub fn prepare_replay<F: Files>(
    alloc: Global,
    words: ReplayWords<'_>,
    files: &mut F,
) -> Result<Work, Refusal>
    ensures only_reads { OnlyReads (store F.Files files.old) (store F.Files files.new) }
    ensures ready { IfOk result IsReady }
    ensures work { IfOk result (Prepares (replay_command words.entry) (store F.Files files.old)) }
    ensures inside { IfOk result (WritesOwn (replay_paths (replay_words words.entry))) }
    ensures stop { IfErr result (IsStopped (replay_command words.entry) (store F.Files files.old) (store F.Files files.new)) }
    ensures carries { IfErr result (λ refusal. CarriesOwn (replay_paths (replay_words words.entry)) refusal.status) }
{
    let base = read_kept_base(alloc, words.base, files)?;
    rules(&base.table);
    let digest = clean_digest(alloc, &base.table)?;
    log_work(alloc, base, &digest, words, files)
}

/// All that is written and printed of the log over a base with this digest.
fn log_work<F: Files>(
    alloc: Global,
    base: KeptBase,
    digest: &[u8; 32],
    words: ReplayWords<'_>,
    files: &mut F,
) -> Result<Work, Refusal>
    requires digest { digest.now ≡ digest_of base.table }
    requires sources { AreSources base.sources.items base.table }
    ensures only_reads { OnlyReads (store F.Files files.old) (store F.Files files.new) }
    ensures ready { IfOk result IsReady }
    ensures work { IfOk result (λ work. IfTold (F.holds files.old) (λ held. IsMadeOver (replay_words words.entry) base.table held work)) }
    ensures inside { IfOk result (WritesInside words.entry.out.now) }
    ensures stop { IfErr result (IsStoppedOver (replay_words words.entry) base.table (store F.Files files.old) (store F.Files files.new)) }
    ensures carries { IfErr result (λ refusal. CarriesOwn (replay_paths (replay_words words.entry)) refusal.status) }
{
    let log = read_log_at(alloc, 1, words.log, files)?;
    refuse_used(alloc, words.out, files)?;
    replay_work(alloc, words.out, base, digest, log)
}

/// All that is written and printed of a log that is read, over a base with this digest.
fn replay_work(
    alloc: Global,
    out: &Text,
    base: KeptBase,
    digest: &[u8; 32],
    log: Log,
) -> Result<Work, Refusal>
    requires digest { digest.now ≡ digest_of base.table }
    requires sources { AreSources base.sources.items base.table }
    ensures ready { IfOk result IsReady }
    ensures work { IfOk result (IsReplayWork out.now base.table log) }
    ensures inside { IfOk result (WritesInside out.now) }
    ensures stop { IfErr result (IsReplayStopped base.table log) }
    ensures carries { IfErr result (λ refusal. Carries NoPath NoPath NoPath refusal.status) }
{
    let KeptBase { sources, table } = base;
    let left = replayed(alloc, sources.as_slice(), table, digest, log)?;
    left_work(alloc, out, &left)
}

/// The program that a log leaves of a base with this digest and these sources, each value tidied.
fn replayed(
    alloc: Global,
    sources: &[File],
    base: Table,
    digest: &[u8; 32],
    log: Log,
) -> Result<Table, Refusal>
    requires digest { digest.now ≡ digest_of base }
    requires sources { AreSources sources.now base }
    ensures left { IfOk result (λ left. left ≡ tidy (left_by base log)) }
    ensures tidied { IfOk result (λ left. tidy left ≡ left) }
    ensures replays { OnOk result (Replays base log) }
    ensures stop { IfErr result (IsRefusalOfReplay base log) }
{
    match replay_tidied(alloc, base, digest, log) {
        Ok(left) => Ok(left),
        Err(fault) => Err(kept_refusal(alloc, sources, fault)),
    }
}

/// The refusal of a log that does not replay on a base with these sources. Where its line names addresses of the base, that is read again.
fn kept_refusal(alloc: Global, sources: &[File], fault: ReplayFault) -> Refusal
    requires small { AreSmall sources.now }
    requires apart { ArePathsApart (file_pairs sources.now) }
    ensures { (base : Program) → AreSources sources.now base → IsRefusalOfFault base 1 fault result }
{
    match fault {
        ReplayFault::NotClean(found) => unclean_refusal(alloc, sources, found),
        ReplayFault::OutOfMemory => Refusal::out_of_memory(),
        fault => Refusal::of(alloc, Status::LogRefused(1, LogCause::Replay(fault))),
    }
}

/// The refusal of a log for the first fault of what it leaves.
fn unclean_refusal(alloc: Global, sources: &[File], found: Fault) -> Refusal
    requires small { AreSmall sources.now }
    requires apart { ArePathsApart (file_pairs sources.now) }
    ensures { (base : Program) → AreSources sources.now base → IsRefusalOfFault base 1 (ReplayFault.NotClean found) result }
{
    match read_again(alloc, sources) {
        Ok(base) => replay_refusal(alloc, &base, 1, ReplayFault::NotClean(found)),
        Err(OutOfMemory) => Refusal::out_of_memory(),
    }
}

/// All that is written and printed below a folder of a program of which each value is tidied already, unless it passes a limit.
fn left_work(alloc: Global, out: &Text, left: &Table) -> Result<Work, Refusal>
    requires { tidy left.now ≡ left.now }
    ensures ready { IfOk result IsReady }
    ensures work { IfOk result (IsFilesWork out.now left.now) }
    ensures inside { IfOk result (WritesInside out.now) }
    ensures stop { IfErr result (IsRefusalOfLimits left.now) }
    ensures carries { IfErr result (λ refusal. Carries NoPath NoPath NoPath refusal.status) }
{
    match tidied_work(alloc, out, left) {
        Ok(work) => Ok(work),
        Err(fault) => Err(Refusal::of(alloc, Status::from(fault))),
    }
}

/// The same, by the indexes of the program.
fn tidied_work(alloc: Global, out: &Text, tidied: &Table) -> Result<Work, StoreFault>
    requires { tidy tidied.now ≡ tidied.now }
    ensures ready { IfOk result IsReady }
    ensures work { IfOk result (IsFilesWork out.now tidied.now) }
    ensures inside { IfOk result (WritesInside out.now) }
    ensures stop { IfErr result (StopsLarge tidied.now) }
    ensures carries { IfErr result (λ fault. Carries NoPath NoPath NoPath (store_status fault)) }
{
    let program = ProgramIndex::new(alloc, tidied)?;
    files_work(alloc, out, &program)
}
