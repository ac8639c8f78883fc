//! The merge of two logs.
ghost use Rattle.std.specs.Prelude.{◌≡◌, ◌≢◌, IfErr, IfOk, OnOk};
ghost use Rattle.mol_log_rules.specs.Living.{HasNoDead};
ghost use Rattle.mol_merge.specs.Finding.{TellsLarge, TellsReplay};
ghost use Rattle.mol_merge.specs.Outcomes.{AreMergeable, ComesTo, IsOutcome, IsPassed, IsPassing, IsReplayed, IsWritten};
ghost use Rattle.mol_merge.specs.Outcomes.{MergeRefuses, NameBoth, written_limit};
ghost use Rattle.mol_merge_rules.specs.TwoLogs.{ShareNoTag};
ghost use Rattle.mol_replay.specs.Replays.{Replays};
ghost use Rattle.mol_spell_files.specs.Bundle.{digest_of};
ghost use Rattle.mol_table_rules.specs.Tidy.{tidy};

use crate::found::{Found, conflicts_of};
use crate::limits::{files_within, log_within};
use crate::outcome::{MergeFault, Merged, Outcome};
use crate::tags::least_shared;
use mol_base::{List, OutOfMemory};
use mol_log::Log;
use mol_replay::{ReplayFault, replay_on};
use mol_spell_files::{digest_of_files, program_files};
use mol_spell_names::ProgramIndex;
use mol_table::Table;
use mol_unite::comes_first;
use std::alloc::Global;

/// Merges two logs over one base.
///
/// Where nothing in them conflicts, the answer has the files of the program that both leave together, and the merged log, which replays on
/// the base to that program. Else it has all conflicts: the pair conflicts, and where there are none, the faults of that program, each with
/// the stamps of the entries from which it comes. The order in which the logs are given changes nothing of the answer.
///
/// Refuses, in this order: a tag that both logs have, the least one; the first log, where it does not replay on the base; the second one
/// likewise; and, where nothing conflicts, a number of the result that passes its limit: first those of `refuse_large` for the files, then
/// the entries of the merged log, then its bytes.
///
/// The base is tidied and has no dead entity, as each program is that sources read as. The time is near-linear in the base and
/// the logs, but for what names cost. Each log is replayed by itself, and what it leaves is made anew for the conflicts: so beside the base
/// there are two programs in memory at a time, and a third one only while it is tidied.
pub fn merge(alloc: Global, base: &Table, first: &Log, second: &Log) -> Result<Outcome, MergeFault>
    requires tidied { tidy base.now ≡ base.now }
    requires alive { HasNoDead base.now }
    ensures answer { IfOk result (IsOutcome base.now first.now second.now) }
    ensures allowed { OnOk result (AreMergeable base.now first.now second.now) }
    ensures refused { IfErr result (λ fault. fault ≢ MergeFault.OutOfMemory → MergeRefuses base.now first.now second.now fault) }
    ensures above { IfErr result IsPassed }
    ensures replays { IfOk result (IsReplayed base.now first.now second.now) }
    // Conflicts name both sides: an entry of each log, but for names that are misread.
    ensures both_sides { IfOk result (NameBoth first.now second.now) }
{
    // That the rules of programs hold of every table is what this call says.
    let _ = base.ids();
    match least_shared(first, second) {
        Some(tag) => Err(MergeFault::SharedTag(tag)),
        None => merge_apart(alloc, base, first, second),
    }
}

/// Merges two logs that share no tag.
fn merge_apart(
    alloc: Global,
    base: &Table,
    first: &Log,
    second: &Log,
) -> Result<Outcome, MergeFault>
    requires tidied { tidy base.now ≡ base.now }
    requires apart { ShareNoTag first.now second.now }
    ensures answer { IfOk result (IsOutcome base.now first.now second.now) }
    ensures allowed { OnOk result (AreMergeable base.now first.now second.now) }
    ensures refused { IfErr result (λ fault. fault ≢ MergeFault.OutOfMemory → MergeRefuses base.now first.now second.now fault) }
    ensures above { IfErr result IsPassed }
{
    let have = digest_of_tidied(alloc, base)?;
    refuse_first(alloc, base, &have, first)?;
    refuse_second(alloc, base, &have, second)?;
    if comes_first(first, second) {
        merge_in_turn(alloc, base, first, second)
    } else {
        merge_in_turn(alloc, base, second, first)
    }
}

/// The digest of a program that is tidied.
fn digest_of_tidied(alloc: Global, base: &Table) -> Result<[u8; 32], OutOfMemory>
    requires { tidy base.now ≡ base.now }
    ensures { IfOk result (λ digest. digest ≡ digest_of base.now) }
{
    let program = ProgramIndex::new(alloc, base)?;
    digest_of_program(alloc, &program)
}

/// The same, by the indexes of the program.
fn digest_of_program(alloc: Global, program: &ProgramIndex<'_>) -> Result<[u8; 32], OutOfMemory>
    requires { tidy program.now ≡ program.now }
    ensures { IfOk result (λ digest. digest ≡ digest_of program.now) }
{
    let files = program_files(alloc, program)?;
    digest_of_files(alloc, files.texts.as_slice())
}

/// Refuses a first log that does not replay. What it leaves is let go of.
fn refuse_first(alloc: Global, base: &Table, have: &[u8; 32], log: &Log) -> Result<(), MergeFault>
    requires { have.now ≡ digest_of base.now }
    ensures replays { OnOk result (Replays base.now log.now) }
    ensures refused { IfErr result (λ fault. fault ≢ MergeFault.OutOfMemory → TellsReplay MergeFault.First base.now log.now fault) }
    ensures above { IfErr result IsPassed }
{
    match replay_on(alloc, base, have, log) {
        Ok(left) => {
            drop(left);
            Ok(())
        },
        Err(fault) => Err(of_first(fault)),
    }
}

/// Refuses a second one likewise.
fn refuse_second(alloc: Global, base: &Table, have: &[u8; 32], log: &Log) -> Result<(), MergeFault>
    requires { have.now ≡ digest_of base.now }
    ensures replays { OnOk result (Replays base.now log.now) }
    ensures refused { IfErr result (λ fault. fault ≢ MergeFault.OutOfMemory → TellsReplay MergeFault.Second base.now log.now fault) }
    ensures above { IfErr result IsPassed }
{
    match replay_on(alloc, base, have, log) {
        Ok(left) => {
            drop(left);
            Ok(())
        },
        Err(fault) => Err(of_second(fault)),
    }
}

/// Why a first log does not replay.
fn of_first(fault: ReplayFault) -> MergeFault
    ensures told { result ≢ MergeFault.OutOfMemory → (fault ≢ ReplayFault.OutOfMemory) × (result ≡ MergeFault.First fault) }
    ensures above { IsPassed result }
{
    match fault {
        ReplayFault::OutOfMemory => MergeFault::OutOfMemory,
        fault => MergeFault::First(fault),
    }
}

/// Why a second one does not.
fn of_second(fault: ReplayFault) -> MergeFault
    ensures told { result ≢ MergeFault.OutOfMemory → (fault ≢ ReplayFault.OutOfMemory) × (result ≡ MergeFault.Second fault) }
    ensures above { IsPassed result }
{
    match fault {
        ReplayFault::OutOfMemory => MergeFault::OutOfMemory,
        fault => MergeFault::Second(fault),
    }
}

/// Merges two logs that replay, the one of the lesser first tag and the other.
fn merge_in_turn(alloc: Global, base: &Table, one: &Log, other: &Log) -> Result<Outcome, MergeFault>
    requires one { Replays base.now one.now }
    requires other { Replays base.now other.now }
    requires apart { ShareNoTag one.now other.now }
    ensures answer { IfOk result (ComesTo base.now one.now other.now) }
    ensures refused { IfErr result (λ fault. fault ≢ MergeFault.OutOfMemory → TellsLarge base.now one.now other.now fault) }
    ensures above { IfErr result IsPassed }
{
    match conflicts_of(alloc, base, one, other)? {
        Found::Conflicts(list) => Ok(Outcome::Conflicts(list)),
        Found::United(together) => Ok(Outcome::Merged(merged_of(alloc, together, one, other)?)),
    }
}

/// Two logs in one: the files of what both leave, and the log of both.
fn merged_of(alloc: Global, together: Table, one: &Log, other: &Log) -> Result<Merged, MergeFault>
    requires { ShareNoTag one.now other.now }
    ensures merged { IfOk result (IsWritten together one.now other.now) }
    ensures refused { IfErr result (IsPassing (written_limit together one.now other.now)) }
    ensures above { IfErr result IsPassed }
{
    let files = files_within(alloc, together)?;
    let log = log_within(alloc, one, other)?;
    Ok(Merged {
        files,
        log,
        plan: List::new(alloc),
        dropped: List::new(alloc),
    })
}
