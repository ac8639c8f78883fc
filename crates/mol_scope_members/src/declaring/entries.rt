//! How members stand in an index.
ghost use Rattle.std.specs.Prelude.{◌≡◌, [], IfOk};

use jav_names::id_index::Entry;
use mol_base::{Id, OutOfMemory, Text};
use std::alloc::Global;

/// An entry by a name.
pub(crate) fn named_entry(
    alloc: Global,
    owner: &Id,
    arity: usize,
    name: &str,
    id: &Id,
) -> Result<Entry, OutOfMemory>
    ensures { IfOk result (λ entry. entry ≡ record { owner = owner.now; arity = arity; name = name.now; id = id.now }) }
{
    let name = Text::from_str(alloc, name)?;
    Ok(Entry {
        owner: *owner,
        arity,
        name,
        id: *id,
    })
}

/// An entry without a name.
pub(crate) fn nameless_entry(alloc: Global, owner: &Id, arity: usize, id: &Id) -> Entry
    ensures { result ≡ record { owner = owner.now; arity = arity; name = []; id = id.now } }
{
    Entry {
        owner: *owner,
        arity,
        name: Text::empty(alloc),
        id: *id,
    }
}
