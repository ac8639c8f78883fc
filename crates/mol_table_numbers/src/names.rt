//! The new identities.
ghost use Rattle.std.specs.Prelude.{◌<◌, ◌^◌, IfOk, length};
ghost use Rattle.mol_table_numbers.specs.Numbering.{AreApart, AreNames};

use indexmap::IndexMap;
use mol_base::{Id, OutOfMemory, Tag};
use std::alloc::Global;

/// Each identity's new one: that of a base with its place, from 1.
pub(crate) fn new_names(alloc: Global, ids: &[Id]) -> Result<IndexMap<Id, Id>, OutOfMemory>
    requires few { length ids.now < 2 ^ 32 }
    requires apart { AreApart ids.now }
    ensures { IfOk result (λ names. AreNames ids.now names.entries) }
{
    let mut names = IndexMap::new(alloc);
    let mut num = 0;
    for id in ids {
        num += 1;
        let name = Id {
            tag: Tag::base(),
            num,
        };
        let _ = names.insert(*id, name)?;
    }
    Ok(names)
}
