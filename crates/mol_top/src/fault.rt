//! Why the calls below a run fail, and what is answered to each fault.
use crate::status::{BaseFault, Status};
use mol_base::{OutOfMemory, Text};
use mol_program::ReadFault;
use mol_spell_files::LimitFault;
use std::alloc::AllocFailed;

/// Why a step does not get what it asks of the store.
#[derive(Debug, Drop)]
pub enum StoreFault {
    /// A listing or a read failed, of the folder or file of this path.
    ReadFailed(Text),
    /// An input file is not there, or the folder of this path has no Java file.
    Missing(Text),
    /// A file is there already where files are to be written.
    OutInUse(Text),
    Limit(LimitFault),
    OutOfMemory,
}

impl From<LimitFault> for StoreFault {
    ghost use Rattle.std.specs.Prelude.{◌≡◌};
    ghost use Rattle.mol_top.specs.declared.fault.StoreFault.TheVariants.{Limit};

    ghost from_gives = { λ limit fault. fault ≡ Limit limit };

    fn from(limit: LimitFault) -> StoreFault {
        StoreFault::Limit(limit)
    }
}

impl From<OutOfMemory> for StoreFault {
    ghost use Rattle.std.specs.Prelude.{◌≡◌};
    ghost use Rattle.mol_top.specs.declared.fault.StoreFault.TheVariants.{OutOfMemory as Wants};

    ghost from_gives = { λ _ fault. fault ≡ Wants };

    fn from(_: OutOfMemory) -> StoreFault {
        StoreFault::OutOfMemory
    }
}

impl<T: Drop> From<AllocFailed<T>> for StoreFault {
    ghost use Rattle.std.specs.Prelude.{◌≡◌};
    ghost use Rattle.mol_top.specs.declared.fault.StoreFault.TheVariants.{OutOfMemory as Wants};

    ghost from_gives = { λ _ fault. fault ≡ Wants };

    fn from(_: AllocFailed<T>) -> StoreFault {
        StoreFault::OutOfMemory
    }
}

impl From<LimitFault> for Status {
    ghost use Rattle.std.specs.Prelude.{◌≡◌};
    ghost use Rattle.mol_top.specs.Answers.{limit_status};

    ghost from_gives = { λ fault status. status ≡ limit_status fault };

    fn from(fault: LimitFault) -> Status {
        Status::Limit(fault.which, fault.number)
    }
}

impl From<StoreFault> for Status {
    ghost use Rattle.std.specs.Prelude.{◌≡◌};
    ghost use Rattle.mol_top.specs.Answers.{store_status};

    ghost from_gives = { λ fault status. status ≡ store_status fault };

    fn from(fault: StoreFault) -> Status {
        match fault {
            StoreFault::ReadFailed(path) => Status::ReadFailed(path),
            StoreFault::Missing(path) => Status::Missing(path),
            StoreFault::OutInUse(path) => Status::OutInUse(path),
            StoreFault::Limit(limit) => Status::from(limit),
            StoreFault::OutOfMemory => Status::OutOfMemory,
        }
    }
}

impl From<ReadFault> for Status {
    ghost use Rattle.std.specs.Prelude.{◌≡◌};
    ghost use Rattle.mol_top.specs.Answers.{read_status};

    ghost from_gives = { λ fault status. status ≡ read_status fault };

    fn from(fault: ReadFault) -> Status {
        match fault {
            ReadFault::Refused(place, fault) => {
                Status::BaseRefused(BaseFault::Source(place, fault))
            }
            ReadFault::OutOfMemory => Status::OutOfMemory,
        }
    }
}
