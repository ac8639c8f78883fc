//! The numbers that come next at each member.
ghost use Rattle.std.specs.Prelude.{◌≡◌, ◌+◌, ◌<◌, ◌^◌, IfOk, OnOk, length, map};
ghost use Rattle.mol_resolve_members.specs.places.Listings.{as_listed};
ghost use Rattle.mol_resolve_members.specs.numbers.Given.{first_after, firsts_of, given};
ghost use Rattle.mol_resolve_members.specs.numbers.Members.{keys_of, members_of};
ghost use Rattle.mol_resolve_members.specs.numbers.Tops.{tops_of};

use crate::numbers::tops::is_top;
use crate::places::{Listed, Places};
use jav_tree::Member;
use mol_base::{OutOfMemory, number_of};
use std::alloc::Global;

/// Of each member the number that comes next before its method and parameters are given theirs, and at last the one after all.
pub(crate) fn firsts(
    alloc: Global,
    places: &Places<'_>,
    classes: u32,
    listed: &[Listed<'_>],
    tops: &[u32],
) -> Result<Vec<u32>, OutOfMemory>
    requires classes { classes ≡ length places.now }
    requires listed { map as_listed listed.now ≡ members_of places.now }
    requires tops { tops.now ≡ tops_of places.now }
    ensures firsts { IfOk result (λ firsts. firsts.items ≡ firsts_of places.now) }
    ensures fits { OnOk result (first_after places.now (length (keys_of places.now)) < 2 ^ 32) }
{
    let mut firsts = Vec::new(alloc);
    let mut next = number_of(1 + classes as usize + listed.len())?;
    firsts.push(next)?;
    for member in listed {
        let count = given(member.member, is_top(places, tops, member.at))?;
        next = number_of(next as usize + count as usize)?;
        firsts.push(next)?;
    }
    Ok(firsts)
}

/// How many numbers are given at a member: to a method and its parameters, at the topmost declaration.
fn given(member: &Member, is_top: bool) -> Result<u32, OutOfMemory>
    ensures { IfOk result (λ count. count ≡ given member.now is_top) }
{
    match member {
        Member::Method(method) if is_top => number_of(1 + method.params.items().len()),
        Member::Ctor(ctor) if is_top => number_of(1 + ctor.params.items().len()),
        _ => Ok(0),
    }
}
