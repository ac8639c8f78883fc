//! What a merge answers.
use mol_base::{File, List, OutOfMemory, Stamp, Tag, Which};
use mol_faults_rules::Conflict;
use mol_log::Log;
use mol_replay::ReplayFault;
use mol_spell_files::LimitFault;

/// What two logs that replay on one base come to.
#[derive(Drop)]
pub enum Outcome {
    /// Nothing in them conflicts.
    Merged(Merged),
    /// Why they do not go together: at least one.
    Conflicts(List<Conflict>),
}

/// Two logs in one.
#[derive(Drop)]
pub struct Merged {
    /// The source files of the program that both logs leave together, in the order of their paths, which are relative to the folder of the
    /// sources. They are within the limits of a result.
    pub files: List<File>,
    /// The entries of the log with the lesser first tag, and then those of the other, under all tags of both. It replays on their base and
    /// leaves the program of the files.
    pub log: Log,
    /// The groups of the merged log. No plan is made yet: there are none.
    pub plan: List<Group>,
    /// The stamps of the entries that a policy dropped. Without a policy there are none.
    pub dropped: List<Stamp>,
}

/// Entries of a log that go together.
#[derive(Drop)]
pub struct Group {
    /// Their stamps, in the order of the log.
    pub ops: List<Stamp>,
    /// Whether they are several, each of which needs each other one.
    pub cycle: bool,
}

/// Why two logs are not merged: the first of these that holds, in this order, or want of memory.
#[derive(Drop)]
pub enum MergeFault {
    /// The least tag that both logs have.
    SharedTag(Tag),
    /// Why the first log does not replay on the base. It is not want of memory.
    First(ReplayFault),
    /// Why the second one does not. It is not want of memory.
    Second(ReplayFault),
    /// Nothing conflicts, and this number of the result passes its limit: of its files, or of the entries or the bytes of the merged log.
    Limit(Which, u64),
    /// There is no memory. What would have come is not known.
    OutOfMemory,
}

impl From<OutOfMemory> for MergeFault {
    ghost use Rattle.std.specs.Prelude.{◌≡◌};
    ghost use Rattle.mol_merge.specs.declared.outcome.MergeFault.TheVariants.{OutOfMemory as Wants};

    ghost from_gives = { λ _ fault. fault ≡ Wants };

    fn from(_: OutOfMemory) -> MergeFault {
        MergeFault::OutOfMemory
    }
}

impl From<LimitFault> for MergeFault {
    ghost use Rattle.std.specs.Prelude.{◌≡◌};
    ghost use Rattle.mol_merge.specs.Outcomes.{as_limit};

    ghost from_gives = { λ limit fault. fault ≡ as_limit limit };

    fn from(limit: LimitFault) -> MergeFault {
        MergeFault::Limit(limit.which, limit.number)
    }
}
