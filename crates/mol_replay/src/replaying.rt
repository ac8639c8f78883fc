//! Replay of a log on a base.
ghost use Rattle.std.specs.Prelude.{◌≡◌, ◌≢◌, IfErr, IfOk, OnOk};
ghost use Rattle.mol_log_rules.specs.Histories.{HasLastWrites, after};
ghost use Rattle.mol_log_rules.specs.Logs.{history};
ghost use Rattle.mol_replay.specs.Replays.{ReplayRefuses, Replays};
ghost use Rattle.mol_spell_files.specs.Bundle.{digest_of};

use crate::applying::apply_log;
use crate::digests::digest;
use crate::fault::ReplayFault;
use mol_faults::first_fault;
use mol_log::Log;
use mol_table::Table;
use std::alloc::Global;

/// The program that a log leaves of a base: the base with the last writes of the log.
///
/// Refuses, in this order: a log of another base, by its digest; the first entry that does not apply to what those before it leave; and
/// what all of them leave, for its first fault. The base stays as it is.
///
/// The digest of the base is computed: where it is known, `replay_on` takes it. Else the time is that of `replay_on`.
pub fn replay(alloc: Global, base: &Table, log: &Log) -> Result<Table, ReplayFault>
    // Replay is last writes: the answer is the one program that has them over the base.
    ensures last_writes { IfOk result (HasLastWrites base.now (history log.now)) }
    ensures left { IfOk result (λ table. table ≡ after base.now (history log.now)) }
    ensures replays { OnOk result (Replays base.now log.now) }
    ensures refused { IfErr result (λ fault. fault ≢ ReplayFault.OutOfMemory → ReplayRefuses base.now log.now fault) }
{
    let have = digest(alloc, base)?;
    replay_on(alloc, base, &have, log)
}

/// The program that a log leaves of a base whose digest is known, as that of a base on which several logs are replayed. It answers as
/// `replay` does.
///
/// The time is that of one copy of the base, of applying each entry once, and of finding the faults of what they leave.
pub fn replay_on(
    alloc: Global,
    base: &Table,
    have: &[u8; 32],
    log: &Log,
) -> Result<Table, ReplayFault>
    requires { have.now ≡ digest_of base.now }
    ensures left { IfOk result (λ table. table ≡ after base.now (history log.now)) }
    ensures replays { OnOk result (Replays base.now log.now) }
    ensures refused { IfErr result (λ fault. fault ≢ ReplayFault.OutOfMemory → ReplayRefuses base.now log.now fault) }
{
    if *have == log.base_digest {
        replay_own(alloc, base, log)
    } else {
        Err(ReplayFault::BaseDiffers {
            have: *have,
            want: log.base_digest,
        })
    }
}

/// The program that a log leaves of its own base.
fn replay_own(alloc: Global, base: &Table, log: &Log) -> Result<Table, ReplayFault>
    requires { log.now.base_digest ≡ digest_of base.now }
    ensures left { IfOk result (λ table. table ≡ after base.now (history log.now)) }
    ensures replays { OnOk result (Replays base.now log.now) }
    ensures refused { IfErr result (λ fault. fault ≢ ReplayFault.OutOfMemory → ReplayRefuses base.now log.now fault) }
{
    let mut table = base.copy(alloc)?;
    apply_log(alloc, &mut table, log)?;
    match first_fault(alloc, &table)? {
        None => Ok(table),
        Some(fault) => Err(ReplayFault::NotClean(fault)),
    }
}
