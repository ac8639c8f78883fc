//! The two traits through which the program reaches files and its output.
ghost use Rattle.std.specs.Prelude.{◌≡◌, ◌≤◌, ℕ, List, Option, IfOk, IfSome, OnOk, OnErr, IsErrOf, take};
ghost use Rattle.std.specs.Ordering.{nat_cmp};
ghost use Rattle.std.specs.List.Sorted.{IsStrictlySortedBy};
ghost use Rattle.std.specs.Cmp.Lexicographic.{slice_cmp};
ghost use Rattle.std.specs.FinMap.{get};
ghost use Rattle.mol_outside.specs.Contents.{Contents, paths_below, written_at, elsewhere, appended, HasRisen};

use mol_base::{List, OutOfMemory, Text};
use std::alloc::{AllocError, AllocFailed, Global};

/// A call on the outside failed.
#[derive(Clone, Copy, Debug, PartialEq, Eq)]
pub struct Failed;

/// Why a listing or a read gave nothing.
#[derive(Clone, Copy, Debug, PartialEq, Eq)]
pub enum FileFail {
    /// The call failed, and the count of failed listings and reads rose.
    Failed,
    OutOfMemory,
}

impl From<OutOfMemory> for FileFail {
    ghost use Rattle.std.specs.Prelude.{◌≡◌};
    ghost use Rattle.mol_outside.specs.declared.outside.FileFail.TheVariants.{OutOfMemory as Wants};

    ghost from_gives = { λ _ fail. fail ≡ Wants };

    fn from(_: OutOfMemory) -> FileFail {
        FileFail::OutOfMemory
    }
}

impl From<AllocError> for FileFail {
    ghost use Rattle.std.specs.Prelude.{◌≡◌};
    ghost use Rattle.mol_outside.specs.declared.outside.FileFail.TheVariants.{OutOfMemory as Wants};

    ghost from_gives = { λ _ fail. fail ≡ Wants };

    fn from(_: AllocError) -> FileFail {
        FileFail::OutOfMemory
    }
}

impl<T: Drop> From<AllocFailed<T>> for FileFail {
    ghost use Rattle.std.specs.Prelude.{◌≡◌};
    ghost use Rattle.mol_outside.specs.declared.outside.FileFail.TheVariants.{OutOfMemory as Wants};

    ghost from_gives = { λ _ fail. fail ≡ Wants };

    fn from(_: AllocFailed<T>) -> FileFail {
        FileFail::OutOfMemory
    }
}

/// A store of files. A path is a text whose parts are joined by `/`.
///
/// No call changes whether `holds` is told: each equation on it holds at `Some` and at `None`.
pub trait Files {
    /// The files: from each path to its bytes. `None` where the store does not tell.
    ghost holds: { Self → Option Contents };

    /// How many listings and reads failed. It never falls, and stands still at 2^64 - 1.
    ghost read_faults: { Self → ℕ };

    /// How many writes failed. It never falls, and stands still at 2^64 - 1.
    ghost write_faults: { Self → ℕ };

    /// The paths of all files below `folder`, relative to it, each once, ascending by their bytes. An
    /// absent folder gives the empty list.
    fn list(&mut self, alloc: Global, folder: &Text) -> Result<List<Text>, FileFail>
        ensures paths { IfOk result (λ paths. IfSome (holds self.old) (λ files. paths ≡ paths_below folder.now files)) }
        ensures ascending { IfOk result (IsStrictlySortedBy (slice_cmp nat_cmp)) }
        ensures holds { holds self.new ≡ holds self.old }
        ensures failed { IsErrOf result FileFail.Failed → HasRisen (read_faults self.old) (read_faults self.new) }
        ensures reads { read_faults self.old ≤ read_faults self.new }
        ensures writes { write_faults self.new ≡ write_faults self.old };

    /// All the bytes of the file at `path`, and `None` exactly where there is no file.
    fn read(&mut self, alloc: Global, path: &Text) -> Result<Option<List<u8>>, FileFail>
        ensures found { IfOk result (λ found. IfSome (holds self.old) (λ files. found ≡ get files path.now)) }
        ensures holds { holds self.new ≡ holds self.old }
        ensures failed { IsErrOf result FileFail.Failed → HasRisen (read_faults self.old) (read_faults self.new) }
        ensures reads { read_faults self.old ≤ read_faults self.new }
        ensures writes { write_faults self.new ≡ write_faults self.old };

    /// Writes a whole file, in place of the one there if there is one, and makes its folders. After a
    /// failure the path may hold anything; all other paths are as before either way.
    fn write(&mut self, path: &Text, bytes: &[u8]) -> Result<(), Failed>
        ensures written { OnOk result (holds self.new ≡ written_at path.now bytes.now (holds self.old)) }
        ensures elsewhere { elsewhere path.now (holds self.new) ≡ elsewhere path.now (holds self.old) }
        ensures failed { OnErr result (HasRisen (write_faults self.old) (write_faults self.new)) }
        ensures writes { write_faults self.old ≤ write_faults self.new }
        ensures reads { read_faults self.new ≡ read_faults self.old };
}

/// Where output goes.
///
/// No call changes whether `written` is told.
pub trait Sink {
    /// All bytes that the sink was given, in order. `None` where it does not tell.
    ghost written: { Self → Option (List ℕ) };

    /// How many puts failed. It never falls, and stands still at 2^64 - 1.
    ghost faults: { Self → ℕ };

    /// Gives the sink a piece. After a failure it has a part of the piece from the front on.
    fn put(&mut self, bytes: &[u8]) -> Result<(), Failed>
        ensures whole { OnOk result (written self.new ≡ appended bytes.now (written self.old)) }
        ensures part { OnErr result ((n : ℕ) × (written self.new ≡ appended (take n bytes.now) (written self.old))) }
        ensures failed { OnErr result (HasRisen (faults self.old) (faults self.new)) }
        ensures later { faults self.old ≤ faults self.new };
}
