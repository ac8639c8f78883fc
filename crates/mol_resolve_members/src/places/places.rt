//! Where files and members stand in the order of paths.
ghost use Rattle.std.specs.Prelude.{◌≡◌, ◌<◌, ◌^◌, IfOk, OnOk, length, sum_by};
ghost use Rattle.std.specs.List.{position_or_len};
ghost use Rattle.mol_resolve_rules.specs.Numbering.{keys_in_order, same_key};
ghost use Rattle.mol_resolve_members.specs.sources.Sources.{files_of};
ghost use Rattle.mol_resolve_members.specs.places.Orders.{numbers_by_path, position};
ghost use Rattle.mol_resolve_members.specs.places.Counts.{members_at, counts_before};
ghost use Rattle.mol_resolve_members.specs.places.Listings.{HasMember, key_of};

use crate::places::positions::positions;
use jav_scope::{MemberRef, SourceUnit};
use mol_base::{OutOfMemory, number_of};
use std::alloc::Global;
use std::marker::Model;

/// The places of source files in the order of their paths, and of their members among those of all files in that order. Contracts see
/// the files.
#[derive(Drop)]
pub struct Places<'a> {
    sources: &'a [SourceUnit],
    /// Of each file its place.
    files: Vec<u32>,
    /// Of each place how many members stand in the files before it, and at last how many there are.
    before: Vec<u32>,
}

impl<'a> Model for Places<'a> {
    ghost use Rattle.std.specs.Prelude.{List};
    ghost use Rattle.std.specs.Coded.{coded_list};
    ghost use Rattle.jav_scope.specs.contracts.source.SourceUnit as source;
    ghost use Rattle.jav_scope.specs.declared.source.SourceUnit.{SourceUnit};
    ghost use Rattle.mol_resolve_members.specs.places.Counts.{ArePlaces};

    ghost Value = { List SourceUnit };

    ghost coded = { coded_list source.the_row.coded };

    ghost view = { λ places. places.sources.now };

    ghost invariant = { λ places. ArePlaces places.sources.now places.files.items places.before.items };
}

impl<'a> Places<'a> {
    /// The places of these files, whose order this is. `Err` is want of memory.
    pub fn new(
        alloc: Global,
        sources: &'a [SourceUnit],
        order: &[u32],
    ) -> Result<Places<'a>, OutOfMemory>
        requires { order.now ≡ numbers_by_path sources.now }
        ensures { IfOk result (λ places. places ≡ sources.now) }
    {
        let files = positions(alloc, order)?;
        let before = counts_before(alloc, sources, order)?;
        Ok(Places {
            sources,
            files,
            before,
        })
    }

    /// The place of the file of this number in the order of paths. It takes no memory.
    pub fn file(&self, unit: u32) -> u32
        requires { unit < length self.now }
        ensures { result ≡ position (numbers_by_path self.now) unit }
    {
        self.files[unit as usize]
    }

    /// The place of a member among those of all files in that order. It takes no memory.
    pub fn member(&self, member: MemberRef) -> u32
        requires { HasMember self.now member }
        ensures { result ≡ position_or_len (same_key (key_of member)) (keys_in_order (files_of self.now)) }
    {
        self.before[self.files[member.unit as usize] as usize] + member.member
    }
}

/// Of each place in an order of files how many members stand in those before it, and of all at last.
fn counts_before(
    alloc: Global,
    sources: &[SourceUnit],
    order: &[u32],
) -> Result<Vec<u32>, OutOfMemory>
    ensures counted { IfOk result (λ before. before.items ≡ counts_before sources.now order.now) }
    ensures fits { OnOk result (sum_by (members_at sources.now) order.now < 2 ^ 32) }
{
    let mut before = Vec::new(alloc);
    let mut count: u32 = 0;
    before.push(count)?;
    for unit in order {
        let members = members_at(sources, *unit)?;
        count = number_of(count as usize + members as usize)?;
        before.push(count)?;
    }
    Ok(before)
}

/// How many members the file of this number has.
fn members_at(sources: &[SourceUnit], unit: u32) -> Result<u32, OutOfMemory>
    ensures { IfOk result (λ members. members ≡ members_at sources.now unit) }
{
    match sources.get(unit as usize) {
        Some(source) => number_of(source.unit.class.members.items().len()),
        None => Ok(0),
    }
}
