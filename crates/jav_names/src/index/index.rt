//! Look-ups by name in a sorted list.
ghost use Rattle.std.specs.Prelude.{◌≡◌, IfOk, find, option_copied};
ghost use Rattle.jav_names.specs.index.Spelled.{spelled};
ghost use Rattle.jav_names.specs.index.Seeking.{is_sought, FindsSame};

use crate::index::entry::Entry;
use crate::index::spelling::Spelling;
use mol_base::OutOfMemory;
use std::marker::Model;

/// Entries that are looked up by owner, number of parameters and name. Contracts see them in ascending order of these.
#[derive(Drop)]
pub struct Index {
    entries: Vec<Entry>,
}

impl Model for Index {
    ghost use Rattle.std.specs.Prelude.{List};
    ghost use Rattle.std.specs.List.Sorted.{IsSorted};
    ghost use Rattle.jav_names.specs.declared.index.entry.Entry.{Entry};
    ghost use Rattle.jav_names.specs.index.Seeking.{entry_cmp};

    ghost Value = { List Entry };

    ghost view = { λ index. index.entries.items };

    ghost invariant = { λ index. IsSorted entry_cmp index.entries.items };
}

impl Index {
    /// An index of these entries. What it finds is what is first among them. The time is that of sorting them. `Err` is want of memory.
    pub fn new(mut entries: Vec<Entry>) -> Result<Index, OutOfMemory>
        ensures { IfOk result (λ index. FindsSame index entries.items) }
    {
        entries.sort_by(|first, second| {
            first.compare(
                second.owner,
                second.arity,
                &Spelling::Whole(second.name.bytes()),
            )
        })?;
        Ok(Index { entries })
    }

    /// The first entry of an owner with this number of parameters and this name. It takes no memory, and the time is
    /// logarithmic in the number of entries.
    pub fn first(&self, owner: u32, arity: usize, name: &Spelling<'_>) -> Option<&Entry>
        ensures { option_copied result ≡ find (is_sought owner arity (spelled name.now)) self.now }
    {
        let entries = self.entries.as_slice();
        let place = entries.partition_point(|entry| entry.compare(owner, arity, name).is_lt());
        match entries.get(place) {
            Some(entry) if entry.compare(owner, arity, name).is_eq() => Some(entry),
            _ => None,
        }
    }
}
