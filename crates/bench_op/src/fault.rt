//! Why a line has no answer.
use mol_base::OutOfMemory;

/// Why a line has no answer.
#[derive(Clone, Copy)]
pub enum StepFault {
    NoStep,
    Refused,
    OutOfMemory,
}

impl StepFault {
    /// What is printed in place of an answer.
    pub fn name(self) -> &'static str {
        match self {
            StepFault::NoStep => "no step",
            StepFault::Refused => "refused",
            StepFault::OutOfMemory => "out of memory",
        }
    }
}

impl From<OutOfMemory> for StepFault {
    fn from(_: OutOfMemory) -> StepFault {
        StepFault::OutOfMemory
    }
}
