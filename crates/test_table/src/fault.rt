//! Why a line has no answer.
use mol_base::OutOfMemory;
use std::alloc::AllocError;

/// Why a line has no answer.
#[derive(Clone, Copy, Debug, PartialEq, Eq)]
pub enum CaseFault {
    /// The line is of none of the forms.
    Unread,
    /// The operation does not apply.
    Refused,
    OutOfMemory,
}

impl CaseFault {
    /// What is printed in place of an answer.
    pub fn name(self) -> &'static str {
        match self {
            CaseFault::Unread => "unread",
            CaseFault::Refused => "refused",
            CaseFault::OutOfMemory => "out of memory",
        }
    }
}

impl From<OutOfMemory> for CaseFault {
    fn from(_: OutOfMemory) -> CaseFault {
        CaseFault::OutOfMemory
    }
}

impl From<AllocError> for CaseFault {
    fn from(_: AllocError) -> CaseFault {
        CaseFault::OutOfMemory
    }
}
