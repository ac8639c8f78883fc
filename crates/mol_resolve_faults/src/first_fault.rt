//! The first of the faults of a file.
ghost use Rattle.std.specs.Prelude.{◌≡◌, None, option_map};
ghost use Rattle.mol_resolve_faults.specs.First.{goes_before, noted};
ghost use Rattle.mol_resolve_faults.specs.Kinds.{kind_of};
ghost use Rattle.mol_resolve_faults.specs.Noted.{noted_fault};
ghost use Rattle.mol_resolve_faults.specs.ResolveFaults.{resolve_fault};

use crate::fault::{FaultPlace, ResolveFault};
use crate::kind::FaultKind;
use std::marker::Model;

/// A fault that was met, and its place in the file, in bytes.
#[derive(Clone, Copy)]
pub(crate) struct Noted {
    kind: FaultKind,
    at: u32,
}

/// The first of the faults of a file that were met: by their places, then by their kinds. Contracts see that fault.
#[derive(Drop)]
pub struct FirstFault {
    first: Option<Noted>,
}

impl Model for FirstFault {
    ghost use Rattle.std.specs.Prelude.{Option, option_map};
    ghost use Rattle.mol_resolve_faults.specs.Noted.{noted_fault};
    ghost use Rattle.mol_resolve_rules.specs.Outcomes.{TreeFault};

    ghost Value = { Option TreeFault };

    ghost view = { λ faults. option_map noted_fault faults.first };
}

impl FirstFault {
    /// None was met. It takes no memory.
    pub fn new() -> FirstFault
        ensures { result ≡ None }
    {
        FirstFault { first: None }
    }

    /// A fault was met at this place in the file, in bytes: it is kept where it goes before the first so far. It takes no memory.
    pub fn note(&mut self, kind: FaultKind, at: u32)
        ensures { self.new ≡ noted self.old (record { kind = kind_of kind; at = at }) }
    {
        let fault = Noted { kind, at };
        match &self.first {
            Some(first) if !fault.goes_before(first) => {},
            _ => self.first = Some(fault),
        }
    }

    /// The first of the faults that were met, if one was, in the file of this number. It takes no memory.
    pub fn fault(&self, unit: u32) -> Option<ResolveFault>
        ensures { result ≡ option_map (resolve_fault unit) self.now }
    {
        match &self.first {
            Some(first) => {
                let place = FaultPlace { unit, at: first.at };
                Some(ResolveFault::new(first.kind, place))
            },
            None => None,
        }
    }
}

impl Noted {
    fn goes_before(&self, first: &Noted) -> bool
        ensures { result ≡ goes_before (noted_fault self.now) (noted_fault first.now) }
    {
        self.at
            .cmp(&first.at)
            .then(self.kind.cmp(&first.kind))
            .is_lt()
    }
}
