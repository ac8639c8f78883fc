//! Identities, with and without repetition.
ghost use Rattle.std.specs.Prelude.{◌≡◌, ◌++◌, IfOk, OnOk};
ghost use Rattle.std.specs.Option.{option_to_list};
ghost use Rattle.mol_faults_support.specs.Declarations.{AreSame};

use indexmap::IndexSet;
use mol_base::{Id, OutOfMemory};
use std::alloc::Global;

/// Adds an identity, where there is one.
pub(crate) fn add_some(ids: &mut Vec<Id>, id: Option<Id>) -> Result<(), OutOfMemory>
    ensures { OnOk result (ids.new.items ≡ ids.old.items ++ option_to_list id) }
{
    if let Some(id) = id {
        ids.push(id)?;
    }
    Ok(())
}

/// These identities as a set.
pub(crate) fn set_of(alloc: Global, ids: &[Id]) -> Result<IndexSet<Id>, OutOfMemory>
    ensures { IfOk result (λ set. AreSame set.keys ids.now) }
{
    let mut set = IndexSet::new(alloc);
    for id in ids {
        let _ = set.insert(*id)?;
    }
    Ok(set)
}
