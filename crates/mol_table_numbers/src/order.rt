//! What lives, in the printed order.
ghost use Rattle.std.specs.Prelude.{◌≡◌, ◌<◌, ◌^◌, IfOk, IfSome, map, unwrap_or};
ghost use Rattle.std.specs.FinMap as finite;
ghost use Rattle.std.specs.List.{filter, list_any, position};
ghost use Rattle.indexmap.specs.IndexMap.{keys};
ghost use Rattle.mol_table_rules.specs.Counting.{passing, Counted};
ghost use Rattle.mol_table_rules.specs.Life.{lives, lists};
ghost use Rattle.mol_table.specs.Maps.{program_in, counts_in, Stands};
ghost use Rattle.mol_values_types.specs.Order.{id_eq};
ghost use Rattle.mol_table_rules.specs.Program.{owner_at};
ghost use Rattle.mol_table_numbers.specs.Numbering.{IsInOrder};
ghost use Rattle.mol_values.specs.Renaming.{number_in};
ghost use Rattle.mol_table_rules.specs.Renumber.{owner_number, member_rank, method_rank, place_in, shown, rank, number, MayRenumber};
ghost use Rattle.mol_table_numbers.specs.Looked.{HasClasses, HasTops, rank_of};
ghost use Rattle.mol_table_numbers.specs.Tops.{top_in};

use crate::classes::class_order;
use crate::names::new_names;
use crate::rank::Rank;
use crate::tops::{Top, tops};
use indexmap::IndexMap;
use mol_base::{Id, OutOfMemory};
use mol_table::Maps;
use mol_values_types::{Known, Param};
use std::alloc::Global;

/// Whether an entity or a parameter lives.
pub(crate) fn lives(maps: &Maps, id: &Id) -> bool
    requires { Counted (program_in maps.now) (counts_in maps.now) }
    ensures { result ≡ lives (program_in maps.now) id.now }
{
    match maps.find(id) {
        None => false,
        Some(Known::Method(_)) => maps.number(id) != 0,
        Some(Known::Param(method)) => maps.number(&method) != 0 && lists(maps, &method, id),
        Some(_) => maps.is_living(id),
    }
}

/// Whether the method has the parameter in its present list.
fn lists(maps: &Maps, method: &Id, param: &Id) -> bool
    ensures { result ≡ lists (program_in maps.now) method.now param.now }
{
    is_among(param, maps.params(method))
}

/// Whether a list has the parameter.
fn is_among(id: &Id, params: &[Param]) -> bool
    ensures { result ≡ list_any (λ param. id_eq id.now param.id) params.now }
{
    params.iter().any(|param| *id == param.id)
}

/// The place of a parameter in the present list of its method.
fn place_in(maps: &Maps, method: &Id, param: &Id) -> usize
    ensures place { result ≡ place_in (program_in maps.now) method.now param.now }
    ensures small { result < 2 ^ 63 }
{
    match place_of(param, maps.params(method)) {
        Some(place) => place,
        None => 0,
    }
}

/// The number of the class in which an identity stands; 0 where it stands in none that lives.
fn owner_number(maps: &Maps, classes: &IndexMap<Id, Id>, id: &Id) -> u32
    requires { HasClasses (program_in maps.now) classes.now.entries }
    ensures { result ≡ owner_number (program_in maps.now) (owner_at (program_in maps.now) id.now) }
{
    match maps.owner(id) {
        Some(owner) => number_of(classes, &owner),
        None => 0,
    }
}

/// The rank of a field or declaration.
fn member_rank(maps: &Maps, classes: &IndexMap<Id, Id>, id: &Id) -> Rank
    requires { HasClasses (program_in maps.now) classes.now.entries }
    ensures { rank_of result ≡ member_rank (program_in maps.now) id.now }
{
    Rank {
        part: 1,
        class: owner_number(maps, classes, id),
        printed: *id,
        place: 0,
        own: *id,
    }
}

/// The rank of what stands at a place in what belongs to a method, by the declaration that prints.
fn method_rank(maps: &Maps, classes: &IndexMap<Id, Id>, own: &Id, decl: Id, place: usize) -> Rank
    requires { HasClasses (program_in maps.now) classes.now.entries }
    ensures { rank_of result ≡ method_rank (program_in maps.now) own.now decl place }
{
    Rank {
        part: 2,
        class: owner_number(maps, classes, &decl),
        printed: decl,
        place,
        own: *own,
    }
}

/// Where something stands in the printed order.
fn rank(maps: &Maps, classes: &IndexMap<Id, Id>, tops: &IndexMap<Id, Top>, id: &Id) -> Rank
    requires classes { HasClasses (program_in maps.now) classes.now.entries }
    requires tops { HasTops (program_in maps.now) tops.now.entries }
    ensures { rank_of result ≡ rank (program_in maps.now) id.now }
{
    match maps.find(id) {
        None => Rank {
            part: 3,
            class: 0,
            printed: *id,
            place: 0,
            own: *id,
        },
        Some(Known::Class) => Rank {
            part: 0,
            class: number_of(classes, id),
            printed: *id,
            place: 0,
            own: *id,
        },
        Some(Known::Field) => member_rank(maps, classes, id),
        Some(Known::Decl(_)) => member_rank(maps, classes, id),
        Some(Known::Method(_)) => method_rank(maps, classes, id, shown(tops, id), 0),
        Some(Known::Param(method)) => {
            let place = place_in(maps, &method, id) + 1;
            method_rank(maps, classes, id, shown(tops, &method), place)
        },
    }
}

/// The ranks of all that lives, in the order of identities.
fn ranks(
    alloc: Global,
    maps: &Maps,
    classes: &IndexMap<Id, Id>,
    tops: &IndexMap<Id, Top>,
) -> Result<Vec<Rank>, OutOfMemory>
    requires counted { Counted (program_in maps.now) (counts_in maps.now) }
    requires classes { HasClasses (program_in maps.now) classes.now.entries }
    requires tops { HasTops (program_in maps.now) tops.now.entries }
    ensures { IfOk result (λ ranks. map rank_of ranks.items ≡ map (rank (program_in maps.now)) (filter (lives (program_in maps.now)) (keys maps.now.known))) }
{
    let mut ranks = Vec::new(alloc);
    for id in maps.known.keys().as_slice() {
        if lives(maps, id) {
            ranks.push(rank(maps, classes, tops, id))?;
        }
    }
    Ok(ranks)
}

/// All that lives, in the printed order.
pub(crate) fn printed_order(alloc: Global, maps: &Maps) -> Result<Vec<Id>, OutOfMemory>
    requires stands { Stands maps.now }
    requires may { MayRenumber (program_in maps.now) }
    ensures { IfOk result (λ ids. IsInOrder (lives (program_in maps.now)) (number (program_in maps.now))
        (passing (lives (program_in maps.now)) (finite.keys (program_in maps.now).known)) ids.items) }
{
    // The known identities differ.
    let _size = maps.known.len();
    let order = class_order(alloc, maps)?;
    let classes = new_names(alloc, &order)?;
    let tops = tops(alloc, maps)?;
    let mut ranks = ranks(alloc, maps, &classes, &tops)?;
    ranks.sort_unstable();
    rank_ids(alloc, &ranks)
}

/// The place of a parameter in a list.
fn place_of(id: &Id, params: &[Param]) -> Option<usize>
    ensures place { result ≡ position (λ param. id_eq id.now param.id) params.now }
    ensures within { IfSome result (λ place. place < 2 ^ 63) }
{
    let _size = params.len();
    params.iter().position(|param| *id == param.id)
}

/// What these ranks are of.
fn rank_ids(alloc: Global, ranks: &[Rank]) -> Result<Vec<Id>, OutOfMemory>
    ensures { IfOk result (λ ids. ids.items ≡ map (λ (rank : Rank). rank.own) ranks.now) }
{
    let mut ids = Vec::new(alloc);
    for rank in ranks {
        ids.push(rank.own)?;
    }
    Ok(ids)
}

/// The number of the new identity, if there is one, else 0.
fn number_of(names: &IndexMap<Id, Id>, id: &Id) -> u32
    ensures { result ≡ number_in names.now.entries id.now }
{
    match names.get(id) {
        Some(name) => name.num,
        None => 0,
    }
}

/// The topmost declaration of a method, if there is one, else the method.
fn shown(tops: &IndexMap<Id, Top>, method: &Id) -> Id
    ensures { result ≡ unwrap_or (top_in tops.now.entries method.now) method.now }
{
    match tops.get(method) {
        Some(top) => top.decl,
        None => *method,
    }
}
