//! Types as a program keeps them.
ghost use Rattle.std.specs.Prelude.{◌≡◌, IfOk, option_map};
ghost use Rattle.mol_resolve_readings.specs.meant.Kept.{view_reading};
ghost use Rattle.mol_resolve_entities.specs.member_entities.Headings.{tree_in, tree_read};
ghost use Rattle.mol_resolve_readings.specs.reads.Reads.{Reads};

use jav_tree::TypeName;
use mol_base::OutOfMemory;
use mol_resolve_faults::FirstFault;
use mol_resolve_readings::{Names, ReadType};
use mol_values_types::IType;
use std::alloc::Global;

/// A type in a member that begins at this place in its file, in bytes from 0. `None` where its name reads as nothing, which is noted.
/// `Err` is want of memory; of `faults` nothing is said then.
pub fn read_tree<N: Names>(
    alloc: Global,
    names: &N,
    faults: &mut FirstFault,
    at: u32,
    ty: &TypeName,
) -> Result<Option<IType>, OutOfMemory>
    ensures { IfOk result (λ tree. Reads (tree_read (N.reader names.now) at ty.now) tree faults.old faults.new) }
{
    let read = names.read_type(alloc, faults, at, ty)?;
    Ok(tree_of(read))
}

/// The type as a program keeps it.
fn tree_of(read: Option<ReadType>) -> Option<IType>
    ensures { result ≡ option_map tree_in (view_reading read) }
{
    match read {
        Some(read) => Some(read.tree),
        None => None,
    }
}
