//! Why a log does not replay.
ghost use Rattle.std.specs.Prelude.{◌≡◌};

use mol_base::{OutOfMemory, Stamp};
use mol_faults_rules::Fault;
use mol_op::OpFault;

/// Why a log does not replay on a base: the first of the three that holds, or want of memory.
#[derive(Drop)]
pub enum ReplayFault {
    /// It was recorded over another base: the digest of this base, and the one that the log has.
    BaseDiffers { have: [u8; 32], want: [u8; 32] },
    /// The stamp of the first entry that does not apply to what those before it leave, and why.
    NotApplicable(Stamp, OpFault),
    /// The first fault of what all entries leave.
    NotClean(Fault),
    /// There is no memory. What would have come is not known.
    OutOfMemory,
}

/// Why the entries of a log were not all applied.
#[derive(Clone, Copy, Debug, PartialEq, Eq)]
pub enum Inapplicable {
    /// The stamp of the first entry that does not apply to what those before it leave, and why.
    At(Stamp, OpFault),
    /// There is no memory for what an entry writes.
    OutOfMemory,
}

impl From<OutOfMemory> for ReplayFault {
    ghost use Rattle.mol_replay.specs.declared.fault.ReplayFault.TheVariants.{OutOfMemory as Wants};

    ghost from_gives = { λ _ fault. fault ≡ Wants };

    fn from(_: OutOfMemory) -> ReplayFault {
        ReplayFault::OutOfMemory
    }
}

impl From<Inapplicable> for ReplayFault {
    ghost use Rattle.mol_replay.specs.Replays.{as_replay_fault};

    ghost from_gives = { λ why fault. fault ≡ as_replay_fault why };

    fn from(why: Inapplicable) -> ReplayFault {
        match why {
            Inapplicable::At(stamp, fault) => ReplayFault::NotApplicable(stamp, fault),
            Inapplicable::OutOfMemory => ReplayFault::OutOfMemory,
        }
    }
}
