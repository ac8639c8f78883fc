//! Why a case has no answer.
use mol_base::OutOfMemory;
use std::alloc::AllocError;

/// Why a case has no answer.
#[derive(Clone, Copy)]
pub enum CaseFault {
    /// The lines are no log.
    NoLog,
    /// An entry does not apply.
    Refused,
    OutOfMemory,
}

impl CaseFault {
    /// What is printed in place of an answer.
    pub fn name(self) -> &'static str {
        match self {
            CaseFault::NoLog => "no log",
            CaseFault::Refused => "refused",
            CaseFault::OutOfMemory => "out of memory",
        }
    }
}

impl From<OutOfMemory> for CaseFault {
    fn from(_: OutOfMemory) -> CaseFault {
        CaseFault::OutOfMemory
    }
}

impl From<AllocError> for CaseFault {
    fn from(_: AllocError) -> CaseFault {
        CaseFault::OutOfMemory
    }
}
