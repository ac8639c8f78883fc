//! What is known stands ascending: what becomes known goes to the end first, and is then put in its place.
ghost use Rattle.std.specs.Prelude.{◌≡◌, ◌⊎◌, ◌≤◌, ◌<◌, ◌+◌, ◌++◌, ℕ, true, false, length, take, drop, slice_index_or, IfOk, IsTrue};
ghost use Rattle.std.specs.List.{All, Contains};
ghost use Rattle.std.specs.List.Sorted.{IsPartitionPoint, IsPermutation, IsSorted};
ghost use Rattle.std.specs.Ordering.{is_lt};
ghost use Rattle.std.specs.Vec.{vec_capacity};
ghost use Rattle.std.specs.declared.cmp.Ordering.TheVariants.{Less};
ghost use Rattle.indexmap.specs.IndexMap.{keys};
ghost use Rattle.mol_base.specs.Order.{id_cmp};
ghost use Rattle.mol_base.specs.declared.ident.Id.{Id as Identity};
ghost use Rattle.mol_table_rules.specs.Identities.{IsAscending, AscendsTo};
ghost use Rattle.mol_table.specs.Maps.{knowns_of, program_in, IsOrdered};

use crate::maps::Maps;
use indexmap::IndexMap;
use mol_base::{Id, OutOfMemory};
use mol_values_types::Known;

impl Maps {
    /// Room to sort all that is known after so many identities more.
    pub(crate) fn room_to_sort(&self, more: usize) -> Result<Vec<Id>, OutOfMemory>
        ensures { IfOk result (λ room. length self.now.known.entries + more ≤ vec_capacity room) }
    {
        let Some(all) = self.known.len().checked_add(more) else {
            return Err(OutOfMemory);
        };
        Ok(Vec::with_capacity(*self.known.allocator(), all)?)
    }

    /// Puts what is known in order. So many identities ascend already, and if there are more there is room
    /// to sort them all. The time is linear in the rest where that ascends too; else it is that of sorting
    /// the rest together with those of the first ones that come after the least of it. Those that come
    /// before it are not touched.
    pub(crate) fn arrange(&mut self, from: usize, mut room: Vec<Id>)
        requires first { AscendsTo from (keys self.old.known) }
        requires within { from ≤ length self.old.known.entries }
        requires room { (length self.old.known.entries ≤ from) ⊎ (length self.old.known.entries ≤ vec_capacity room) }
        ensures known { (program_in self.new).known ≡ (program_in self.old).known }
        ensures ordered { IsOrdered self.new }
        ensures rest { self.new ≡ record self.old { known = self.new.known } }
    {
        let ids = self.known.keys().as_slice();
        if ids.len() == from || ascends_from(ids, from) {
            return;
        }
        let place = count_before(&ids[..from], &least_of(&ids[from..]));
        sort_from(&mut self.known, place, &mut room);
    }
}

/// Sorts the entries from a place on. There is room for their identities.
fn sort_from(known: &mut IndexMap<Id, Known>, from: usize, room: &mut Vec<Id>)
    requires within { from ≤ length known.old.entries }
    requires room { length known.old.entries ≤ vec_capacity room.old }
    ensures known { knowns_of known.new.entries ≡ knowns_of known.old.entries }
    ensures first { take from (keys known.new) ≡ take from (keys known.old) }
    ensures same { IsPermutation (drop from (keys known.old)) (drop from (keys known.new)) }
    ensures sorted { IsSorted id_cmp (drop from (keys known.new)) }
{
    sort_into(room, &known.keys().as_slice()[from..]);
    put_in_order(known, from, room.as_slice());
}

/// Fills the room with identities, ascending. There is room for them.
fn sort_into(room: &mut Vec<Id>, ids: &[Id])
    requires { length ids.now ≤ vec_capacity room.old }
    ensures same { IsPermutation ids.now room.new.items }
    ensures sorted { IsSorted id_cmp room.new.items }
{
    room.clear();
    room.extend_from_slice(ids).unwrap();
    room.as_mut_slice().sort_unstable();
}

/// Puts the entries from a place on into this order, in which each of them has its identity.
fn put_in_order(known: &mut IndexMap<Id, Known>, from: usize, order: &[Id])
    requires within { from ≤ length known.old.entries }
    requires order { IsPermutation (drop from (keys known.old)) order.now }
    ensures known { knowns_of known.new.entries ≡ knowns_of known.old.entries }
    ensures order { keys known.new ≡ take from (keys known.old) ++ order.now }
    ensures len { length known.new.entries ≡ length known.old.entries }
{
    // The identities differ.
    let _size = known.len();
    for place in 0..order.len() {
        let at = known.get_index_of(&order[place]).unwrap();
        known.swap_indices(from + place, at);
    }
}

/// Whether each identity from a place on comes after the one before it.
fn ascends_from(ids: &[Id], from: usize) -> bool
    requires { from ≤ length ids.now }
    ensures { IsTrue result → AscendsTo from ids.now → IsAscending ids.now }
{
    for at in from..ids.len() {
        if !ascends_at(ids, at) {
            return false;
        }
    }
    true
}

/// Whether the identity at a place comes after the one before it, if there is one.
fn ascends_at(ids: &[Id], at: usize) -> bool
    requires { at < length ids.now }
    ensures { IsTrue result → (k : ℕ) (d : Identity) → at ≡ k + 1 → id_cmp (slice_index_or ids.now k d) (slice_index_or ids.now (k + 1) d) ≡ Less }
{
    if at == 0 {
        return true;
    }
    comes_before(&ids[at - 1], &ids[at])
}

/// The least of some identities.
fn least_of(ids: &[Id]) -> Id
    requires { 0 < length ids.now }
    ensures there { Contains ids.now result }
    ensures least { All (λ id. is_lt (id_cmp id result) ≡ false) ids.now }
{
    let mut least = ids[0];
    for id in ids {
        if comes_before(id, &least) {
            least = *id;
        }
    }
    least
}

/// How many identities come before this one. They ascend, so that those which do stand first.
fn count_before(ids: &[Id], id: &Id) -> usize
    requires { IsAscending ids.now }
    ensures within { result ≤ length ids.now }
    ensures place { IsPartitionPoint (λ first. is_lt (id_cmp first id.now) ≡ true) (λ first. is_lt (id_cmp first id.now) ≡ false) ids.now result }
{
    ids.partition_point(|first| comes_before(first, id))
}

/// Whether the first identity is the lesser one.
fn comes_before(first: &Id, second: &Id) -> bool
    ensures { result ≡ is_lt (id_cmp first.now second.now) }
{
    first < second
}
