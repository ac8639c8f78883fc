//! What an index lists.
ghost use Rattle.std.specs.Prelude.{◌≡◌, ◌++◌, OnOk};
ghost use Rattle.std.specs.Option.{option_to_list};
ghost use Rattle.jav_names.specs.index.Spelled.{spelled};
ghost use Rattle.jav_names.specs.id_index.Seeking.{sought_of, sought_cmp};

use crate::index::Spelling;
use mol_base::{Id, OutOfMemory, Text};
use std::cmp::Ordering;

/// What is found by its owner, its number of parameters and its name.
#[derive(Drop)]
pub struct Entry {
    pub owner: Id,
    pub arity: usize,
    pub name: Text,
    /// The identity that is found.
    pub id: Id,
}

impl Entry {
    /// How its owner, number of parameters and name compare with these, in this order. Names compare byte by byte.
    pub fn compare(&self, owner: &Id, arity: usize, name: &Spelling<'_>) -> Ordering
        ensures { result ≡ sought_cmp (sought_of self.now) (record { owner = owner.now; arity = arity; name = spelled name.now }) }
    {
        match self.owner.cmp(owner).then(self.arity.cmp(&arity)) {
            Ordering::Equal => name.compare(self.name.bytes()),
            order => order,
        }
    }
}

/// Adds an entry to a list, if there is one. `Err` is want of memory.
pub fn add_entry(entries: &mut Vec<Entry>, entry: Option<Entry>) -> Result<(), OutOfMemory>
    ensures { OnOk result (entries.new.items ≡ entries.old.items ++ option_to_list entry) }
{
    if let Some(entry) = entry {
        entries.push(entry)?;
    }
    Ok(())
}
