//! The answers of a run.
use mol_base::{OutOfMemory, Place, Tag, Text, Which};
use mol_faults_rules::Fault;
use mol_log_rows::LogFault;
use mol_program::SourceFault;
use mol_replay::ReplayFault;

/// Why a base is refused.
#[derive(Drop)]
pub enum BaseFault {
    /// The files are no program: the first fault, and where it is, with the path of its file relative to the base.
    Source(Place, SourceFault),
    /// They are a program, which is not clean: its first fault.
    Unclean(Fault),
}

/// Why a log is refused.
#[derive(Drop)]
pub enum LogCause {
    /// The bytes are no log: the first thing that is wrong with them. It is never `OutOfMemory` or `TooLong`.
    Form(LogFault),
    /// The log does not replay on the base. It is never `OutOfMemory`.
    Replay(ReplayFault),
    /// It is the second of two logs, and this tag, the least one, is in both.
    SharedTag(Tag),
}

/// What a run answers. `code` is the exit status of the program.
#[derive(Drop)]
pub enum Status {
    /// All was written.
    Done,
    /// The logs conflict in so many places. Nothing was written.
    Conflicts(u64),
    /// The words are no command.
    Usage,
    /// The base is refused.
    BaseRefused(BaseFault),
    /// The log of this number, 1 or 2, is refused.
    LogRefused(u8, LogCause),
    /// A listing or a read failed, of the folder or file of this path.
    ReadFailed(Text),
    /// An input file is not there, or the folder of this path has no Java file.
    Missing(Text),
    /// The write of this file failed, or for the empty path the put of what is printed.
    WriteFailed(Text),
    OutOfMemory,
    /// A file is there already where files are to be written.
    OutInUse(Text),
    /// A number passes its limit; this is the number.
    Limit(Which, u64),
}

impl Status {
    ghost use Rattle.std.specs.Prelude.{◌≡◌};
    ghost use Rattle.mol_top.specs.Code.{code_of};

    /// The exit status. It takes no memory.
    pub fn code(&self) -> u8
        ensures { result ≡ code_of self.now }
    {
        match self {
            Status::Done => 0,
            Status::Conflicts(_) => 1,
            Status::Usage => 2,
            Status::BaseRefused(_) => 3,
            Status::LogRefused(..) => 4,
            Status::ReadFailed(_) => 5,
            Status::Missing(_) => 6,
            Status::WriteFailed(_) => 7,
            Status::OutOfMemory => 8,
            Status::OutInUse(_) => 9,
            Status::Limit(..) => 10,
        }
    }
}

impl From<OutOfMemory> for Status {
    ghost use Rattle.std.specs.Prelude.{◌≡◌};
    ghost use Rattle.mol_top.specs.declared.status.Status.TheVariants.{OutOfMemory as Wants};

    ghost from_gives = { λ _ status. status ≡ Wants };

    fn from(_: OutOfMemory) -> Status {
        Status::OutOfMemory
    }
}
