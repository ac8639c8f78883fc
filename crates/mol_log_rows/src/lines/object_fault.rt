//! Why an object is not read.
use mol_base::OutOfMemory;

/// Why an object is not read.
#[derive(Clone, Copy, Debug, PartialEq, Eq)]
pub enum ObjectFault {
    OutOfMemory,
    /// It has not the form that is asked for.
    WrongForm,
}

impl From<OutOfMemory> for ObjectFault {
    ghost use Rattle.std.specs.Prelude.{◌≡◌};
    ghost use Rattle.mol_log_rows.specs.declared.lines.object_fault.ObjectFault.TheVariants.{OutOfMemory as Wants};

    ghost from_gives = { λ _ fault. fault ≡ Wants };

    fn from(_: OutOfMemory) -> ObjectFault {
        ObjectFault::OutOfMemory
    }
}
