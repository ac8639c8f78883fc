//! Replay of a log on a base that is used up, for callers that need of both no more than what is left.
ghost use Rattle.std.specs.Prelude.{◌≡◌, ◌≢◌, IfErr, IfOk, OnOk, option_map};
ghost use Rattle.mol_faults.specs.First.{IsFirst};
ghost use Rattle.mol_faults_rules.specs.Kept.{kept_fault};
ghost use Rattle.mol_log_rules.specs.Histories.{after};
ghost use Rattle.mol_log_rules.specs.Logs.{history};
ghost use Rattle.mol_replay.specs.Replays.{IsUnclean, ReplayRefuses, Replays};
ghost use Rattle.mol_spell_files.specs.Bundle.{digest_of};
ghost use Rattle.mol_spell_rules.specs.Clean.{Clean};
ghost use Rattle.mol_table_rules.specs.Tidy.{tidy};

use crate::applying::apply_log;
use crate::fault::ReplayFault;
use mol_base::OutOfMemory;
use mol_faults::first_fault_of_tidied;
use mol_faults_rules::Fault;
use mol_log::Log;
use mol_spell_names::ProgramIndex;
use mol_table::Table;
use std::alloc::Global;

/// The program that a log leaves of a base whose digest is known, each value tidied. It refuses what `replay_on` refuses, in that order.
///
/// The base and the log are used up: the base becomes what is left of it, in place, and the log is let go of before values are tidied where
/// they stand. So no second table stands beside it, and the log no longer while faults are looked for. The time is that of applying each
/// entry once, of tidying each value, and of finding the faults of what is left.
pub fn replay_tidied(
    alloc: Global,
    base: Table,
    have: &[u8; 32],
    log: Log,
) -> Result<Table, ReplayFault>
    requires { have.now ≡ digest_of base }
    ensures left { IfOk result (λ left. left ≡ tidy (after base (history log))) }
    ensures tidied { IfOk result (λ left. tidy left ≡ left) }
    ensures replays { OnOk result (Replays base log) }
    ensures refused { IfErr result (λ fault. fault ≢ ReplayFault.OutOfMemory → ReplayRefuses base log fault) }
{
    if *have == log.base_digest {
        own_tidied(alloc, base, log)
    } else {
        Err(ReplayFault::BaseDiffers {
            have: *have,
            want: log.base_digest,
        })
    }
}

/// The same of the base over which the log was recorded.
fn own_tidied(alloc: Global, base: Table, log: Log) -> Result<Table, ReplayFault>
    requires { log.base_digest ≡ digest_of base }
    ensures left { IfOk result (λ left. left ≡ tidy (after base (history log))) }
    ensures tidied { IfOk result (λ left. tidy left ≡ left) }
    ensures replays { OnOk result (Replays base log) }
    ensures refused { IfErr result (λ fault. fault ≢ ReplayFault.OutOfMemory → ReplayRefuses base log fault) }
{
    let mut left = base;
    apply_log(alloc, &mut left, &log)?;
    drop(log);
    clean_tidied(alloc, left)
}

/// A program with each value tidied, unless it has a fault.
fn clean_tidied(alloc: Global, left: Table) -> Result<Table, ReplayFault>
    ensures is { IfOk result (λ tidied. tidied ≡ tidy left) }
    ensures tidied { IfOk result (λ tidied. tidy tidied ≡ tidied) }
    ensures clean { OnOk result (Clean left) }
    ensures refused { IfErr result (λ fault. fault ≢ ReplayFault.OutOfMemory → IsUnclean left fault) }
{
    // The rules of programs hold of each table.
    let _ = left.ids();
    let tidied = left.into_tidied(alloc)?;
    refuse_unclean(alloc, tidied)
}

/// A program of which each value is tidied already, unless it has a fault.
fn refuse_unclean(alloc: Global, tidied: Table) -> Result<Table, ReplayFault>
    requires { tidy tidied ≡ tidied }
    ensures is { IfOk result (λ clean. clean ≡ tidied) }
    ensures clean { OnOk result (Clean tidied) }
    ensures refused { IfErr result (λ fault. fault ≢ ReplayFault.OutOfMemory → IsUnclean tidied fault) }
{
    match first_fault_in(alloc, &tidied)? {
        None => Ok(tidied),
        Some(fault) => Err(ReplayFault::NotClean(fault)),
    }
}

/// The first fault of a program of which each value is tidied already.
fn first_fault_in(alloc: Global, tidied: &Table) -> Result<Option<Fault>, OutOfMemory>
    requires { tidy tidied.now ≡ tidied.now }
    ensures { IfOk result (λ first. IsFirst tidied.now (option_map kept_fault first)) }
{
    let program = ProgramIndex::new(alloc, tidied)?;
    first_fault_of_tidied(alloc, &program)
}
