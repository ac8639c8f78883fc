//! Why an operation is refused.
use mol_base::{Id, OutOfMemory};

/// Why an operation does not apply: the first of its tests that fails. Each names the identity concerned.
#[derive(Clone, Copy, Debug, PartialEq, Eq)]
pub enum OpFault {
    /// It is not known.
    Unknown(Id),
    /// It is known as something else.
    WrongKind(Id),
    /// Only declarations of static methods move.
    NotStatic(Id),
    /// It is new and has another tag than the entry.
    BadTag(Id),
    /// It is to be new, and is known already or stands twice in the operation.
    NotFresh(Id),
}

/// Why an operation was not applied. The table is as it was.
#[derive(Clone, Copy, Debug, PartialEq, Eq)]
pub enum ApplyFault {
    /// It does not apply.
    Refused(OpFault),
    /// It applies, and there is no memory for a copy of a value or for what becomes known.
    OutOfMemory,
}

impl From<OpFault> for ApplyFault {
    ghost use Rattle.std.specs.Prelude.{◌≡◌};
    ghost use Rattle.mol_op.specs.declared.fault.ApplyFault.TheVariants.{Refused};

    ghost from_gives = { λ why fault. fault ≡ Refused why };

    fn from(why: OpFault) -> ApplyFault {
        ApplyFault::Refused(why)
    }
}

impl From<OutOfMemory> for ApplyFault {
    ghost use Rattle.std.specs.Prelude.{◌≡◌};
    ghost use Rattle.mol_op.specs.declared.fault.ApplyFault.TheVariants.{OutOfMemory as Wants};

    ghost from_gives = { λ _ fault. fault ≡ Wants };

    fn from(_: OutOfMemory) -> ApplyFault {
        ApplyFault::OutOfMemory
    }
}
