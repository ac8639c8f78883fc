//! Which faults a member has beside others.
ghost use Rattle.std.specs.Prelude.{◌≡◌, ◌||◌};
ghost use Rattle.mol_resolve_faults.specs.Kinds.{kind_of};
ghost use Rattle.mol_resolve_faults.specs.beside.Beside.{faulty_noted, noted_if};
ghost use Rattle.mol_resolve_faults.specs.beside.Classes.{either};
ghost use Rattle.mol_resolve_faults.specs.beside.Kept.{faulty_of};

use crate::{FaultKind, FirstFault};

/// Which of the faults between members a member has beside others.
#[derive(Clone, Copy)]
pub struct Faulty {
    /// One that stands before it in its class is of its kind and name, and takes equal types (JLS 8.3, 8.4.2, 8.8.2).
    pub duplicate: bool,
    /// One of its name takes as many parameters, of other types; constructors too.
    pub overload: bool,
    /// A method of its name that takes as many parameters gives another type (JLS 8.4.8.3).
    pub result: bool,
    /// An ancestor of its class has such a method, and one of the two is static (JLS 8.4.8.1, 8.4.8.2).
    pub hides_static: bool,
}

impl Faulty {
    /// The faults of both. It takes no memory.
    pub fn or(&self, further: &Faulty) -> Faulty
        ensures { faulty_of result ≡ either (faulty_of self.now) (faulty_of further.now) }
    {
        Faulty {
            duplicate: either(self.duplicate, further.duplicate),
            overload: either(self.overload, further.overload),
            result: either(self.result, further.result),
            hides_static: either(self.hides_static, further.hides_static),
        }
    }

    /// Notes them at a place in the file, in bytes. It takes no memory.
    pub fn note(&self, faults: &mut FirstFault, at: u32)
        ensures { faults.new ≡ faulty_noted (faulty_of self.now) at faults.old }
    {
        note_if(faults, self.duplicate, FaultKind::DuplicateMember, at);
        note_if(faults, self.overload, FaultKind::OverloadByType, at);
        note_if(faults, self.result, FaultKind::ResultDiffers, at);
        note_if(faults, self.hides_static, FaultKind::StaticHidden, at);
    }
}

fn either(first: bool, second: bool) -> bool
    ensures { result ≡ (first || second) }
{
    first || second
}

/// Notes a fault at a place in the file where it holds.
fn note_if(faults: &mut FirstFault, holds: bool, kind: FaultKind, at: u32)
    ensures { faults.new ≡ noted_if holds (kind_of kind) at faults.old }
{
    if holds {
        faults.note(kind, at);
    }
}
