//! Copies of entries and of logs.
ghost use Rattle.std.specs.Prelude.{◌≡◌, IfOk};

use crate::{Entry, Log};
use mol_base::{List, OutOfMemory};
use std::alloc::Global;

impl Entry {
    /// An entry that equals this one. `Err` is want of memory.
    pub fn copy(&self, alloc: Global) -> Result<Entry, OutOfMemory>
        ensures { IfOk result (λ copy. copy ≡ self.now) }
    {
        Ok(Entry {
            stamp: self.stamp,
            op: self.op.copy(alloc)?,
        })
    }
}

impl Log {
    /// A log that equals this one. `Err` is want of memory.
    pub fn copy(&self, alloc: Global) -> Result<Log, OutOfMemory>
        ensures { IfOk result (λ copy. copy ≡ self.now) }
    {
        let tags = self.tags.copy(alloc)?;
        let entries = copy_entries(alloc, self.entries.items())?;
        Ok(Log {
            base_digest: self.base_digest,
            tags,
            entries,
        })
    }
}

/// Entries that equal these.
fn copy_entries(alloc: Global, entries: &[Entry]) -> Result<List<Entry>, OutOfMemory>
    ensures { IfOk result (λ all. all ≡ entries.now) }
{
    let mut all = List::new(alloc);
    for entry in entries {
        all.add(entry.copy(alloc)?)?;
    }
    Ok(all)
}
