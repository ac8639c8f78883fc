//! The members of source files in the order of their paths.
ghost use Rattle.std.specs.Prelude.{◌≡◌, ◌<◌, ◌++◌, All, IfOk, OnOk, Some, length, map, flat_map, slice_get};
ghost use Rattle.jav_names.specs.UnitViews.{numbered};
ghost use Rattle.mol_resolve_members.specs.places.Listings.{as_listed, with_key, members_in};

use jav_scope::{MemberRef, SourceUnit};
use jav_tree::Member;
use mol_base::{OutOfMemory, number_of};
use std::alloc::Global;

/// A member, and where it stands.
#[derive(Clone, Copy)]
pub struct Listed<'a> {
    pub at: MemberRef,
    pub member: &'a Member,
}

/// The members of source files, in this order of the files. `Err` is want of memory.
pub fn list_members<'a>(
    alloc: Global,
    sources: &'a [SourceUnit],
    order: &[u32],
) -> Result<Vec<Listed<'a>>, OutOfMemory>
    requires { All (λ unit. unit < length sources.now) order.now }
    ensures { IfOk result (λ listed. map as_listed listed.items ≡ flat_map (members_in sources.now) order.now) }
{
    let mut listed = Vec::new(alloc);
    for unit in order {
        let members = sources[*unit as usize].unit.class.members.items();
        list_file(&mut listed, *unit, members)?;
    }
    Ok(listed)
}

/// Adds the members of the file of this number.
fn list_file<'a>(
    listed: &mut Vec<Listed<'a>>,
    unit: u32,
    members: &'a [Member],
) -> Result<(), OutOfMemory>
    ensures { OnOk result
        (map as_listed listed.new.items ≡ map as_listed listed.old.items ++ map (with_key unit) (numbered members.now)) }
{
    for (place, member) in members.iter().enumerate() {
        let number = number_of(place)?;
        let at = MemberRef {
            unit,
            member: number,
        };
        listed.push(Listed { at, member })?;
    }
    Ok(())
}
