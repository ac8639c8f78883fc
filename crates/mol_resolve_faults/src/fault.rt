//! Why source files are no program.
ghost use Rattle.std.specs.Prelude.{◌≡◌};
ghost use Rattle.mol_resolve_faults.specs.Kinds.{kind_of};
ghost use Rattle.mol_resolve_faults.specs.ResolveFaults.{fault_of, place_of, name_of};

use crate::kind::FaultKind;
use mol_base::OutOfMemory;

/// Where a fault is.
#[derive(Clone, Copy, Debug, PartialEq, Eq)]
pub struct FaultPlace {
    /// The number of the file in the list, from 0.
    pub unit: u32,
    /// The place in the file, in bytes from 0.
    pub at: u32,
}

/// Why source files are no program: the first fault by the path of its file, then by its place there, then in the order of kinds.
#[derive(Clone, Copy, Debug, PartialEq, Eq)]
pub enum ResolveFault {
    PathDiffers(FaultPlace),
    DuplicateClass(FaultPlace),
    PackageIsClass(FaultPlace),
    SuperCycle(FaultPlace),
    ImportClash(FaultPlace),
    DuplicateMember(FaultPlace),
    OverloadByType(FaultPlace),
    ResultDiffers(FaultPlace),
    StaticHidden(FaultPlace),
    Redeclared(FaultPlace),
    UnknownName(FaultPlace),
    UnknownMember(FaultPlace),
    StaticByInstance(FaultPlace),
    ReceiverType(FaultPlace),
    /// There was no memory to find out.
    OutOfMemory,
}

impl From<OutOfMemory> for ResolveFault {
    ghost use Rattle.std.specs.Prelude.{◌≡◌};
    ghost use Rattle.mol_resolve_faults.specs.declared.fault.ResolveFault.TheVariants.{OutOfMemory as Wants};

    ghost from_gives = { λ _ fault. fault ≡ Wants };

    fn from(_: OutOfMemory) -> ResolveFault {
        ResolveFault::OutOfMemory
    }
}

impl ResolveFault {
    /// The fault of a kind at a place. It takes no memory.
    pub fn new(kind: FaultKind, place: FaultPlace) -> ResolveFault
        ensures { result ≡ fault_of (kind_of kind) place }
    {
        match kind {
            FaultKind::PathDiffers => ResolveFault::PathDiffers(place),
            FaultKind::DuplicateClass => ResolveFault::DuplicateClass(place),
            FaultKind::PackageIsClass => ResolveFault::PackageIsClass(place),
            FaultKind::SuperCycle => ResolveFault::SuperCycle(place),
            FaultKind::ImportClash => ResolveFault::ImportClash(place),
            FaultKind::DuplicateMember => ResolveFault::DuplicateMember(place),
            FaultKind::OverloadByType => ResolveFault::OverloadByType(place),
            FaultKind::ResultDiffers => ResolveFault::ResultDiffers(place),
            FaultKind::StaticHidden => ResolveFault::StaticHidden(place),
            FaultKind::Redeclared => ResolveFault::Redeclared(place),
            FaultKind::UnknownName => ResolveFault::UnknownName(place),
            FaultKind::UnknownMember => ResolveFault::UnknownMember(place),
            FaultKind::StaticByInstance => ResolveFault::StaticByInstance(place),
            FaultKind::ReceiverType => ResolveFault::ReceiverType(place),
        }
    }

    /// Where it is; the beginning of the first file for want of memory. It takes no memory.
    pub fn place(&self) -> FaultPlace
        ensures { result ≡ place_of self.now }
    {
        match self {
            ResolveFault::PathDiffers(place) => *place,
            ResolveFault::DuplicateClass(place) => *place,
            ResolveFault::PackageIsClass(place) => *place,
            ResolveFault::SuperCycle(place) => *place,
            ResolveFault::ImportClash(place) => *place,
            ResolveFault::DuplicateMember(place) => *place,
            ResolveFault::OverloadByType(place) => *place,
            ResolveFault::ResultDiffers(place) => *place,
            ResolveFault::StaticHidden(place) => *place,
            ResolveFault::Redeclared(place) => *place,
            ResolveFault::UnknownName(place) => *place,
            ResolveFault::UnknownMember(place) => *place,
            ResolveFault::StaticByInstance(place) => *place,
            ResolveFault::ReceiverType(place) => *place,
            ResolveFault::OutOfMemory => FaultPlace { unit: 0, at: 0 },
        }
    }

    /// Its name in messages: the words of the variant in lower case, joined by `-`. It takes no memory.
    pub fn name(&self) -> &'static str
        ensures { result.now ≡ name_of self.now }
    {
        match self {
            ResolveFault::PathDiffers(_) => "path-differs",
            ResolveFault::DuplicateClass(_) => "duplicate-class",
            ResolveFault::PackageIsClass(_) => "package-is-class",
            ResolveFault::SuperCycle(_) => "super-cycle",
            ResolveFault::ImportClash(_) => "import-clash",
            ResolveFault::DuplicateMember(_) => "duplicate-member",
            ResolveFault::OverloadByType(_) => "overload-by-type",
            ResolveFault::ResultDiffers(_) => "result-differs",
            ResolveFault::StaticHidden(_) => "static-hidden",
            ResolveFault::Redeclared(_) => "redeclared",
            ResolveFault::UnknownName(_) => "unknown-name",
            ResolveFault::UnknownMember(_) => "unknown-member",
            ResolveFault::StaticByInstance(_) => "static-by-instance",
            ResolveFault::ReceiverType(_) => "receiver-type",
            ResolveFault::OutOfMemory => "out-of-memory",
        }
    }
}
