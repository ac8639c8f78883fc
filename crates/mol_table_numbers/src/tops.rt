//! The topmost declarations of methods.
ghost use Rattle.std.specs.Prelude.{◌≡◌, IfOk, IfSome, OnOk, List, ◌++◌, ◌∷◌, [], Some, cond, true};
ghost use Rattle.mol_table_rules.specs.Faults.{Apart};
ghost use Rattle.mol_table_numbers.specs.Looked.{HasTops};
ghost use Rattle.mol_table.specs.Maps.{program_in, Stands};
ghost use Rattle.mol_table_rules.specs.Program.{same_id};
ghost use Rattle.mol_table_numbers.specs.Tops.{tops_of, upper, AreTops, AreHeights};
ghost use Rattle.std.specs.FinMap as map;

use crate::heights::height;
use crate::search::tops_by_search;
use indexmap::IndexMap;
use mol_base::{Id, OutOfMemory};
use mol_table::Maps;
use std::alloc::Global;

/// A declaration of a method, and how many classes there are from its class on upwards.
#[derive(Clone, Copy, PartialEq, Eq, PartialOrd, Ord)]
pub(crate) struct Top {
    pub height: usize,
    pub decl: Id,
}

/// The topmost declaration of each method. The time is that of some look-ups for each identity, and
/// where superclasses run in a circle that of looking for them.
pub(crate) fn tops(alloc: Global, maps: &Maps) -> Result<IndexMap<Id, Top>, OutOfMemory>
    requires stands { Stands maps.now }
    requires together { (method : Id) → ¬ (Apart (program_in maps.now) method) }
    ensures { IfOk result (λ tops. HasTops (program_in maps.now) tops.entries) }
{
    match tops_by_height(alloc, maps)? {
        Some(tops) => Ok(tops),
        None => tops_by_search(alloc, maps),
    }
}

/// The topmost declaration of each method, as the one above which there are the fewest classes; none
/// where following superclasses from the class of a declaration does not come to an end.
fn tops_by_height(alloc: Global, maps: &Maps) -> Result<Option<IndexMap<Id, Top>>, OutOfMemory>
    requires { (method : Id) → ¬ (Apart (program_in maps.now) method) }
    ensures { IfOk result (λ found. IfSome found (λ tops. HasTops (program_in maps.now) tops.entries)) }
{
    let mut heights = IndexMap::new(alloc);
    let mut tops = IndexMap::new(alloc);
    for id in maps.known.keys().as_slice() {
        if !note_top(alloc, maps, &mut heights, &mut tops, id)? {
            return Ok(None);
        }
    }
    Ok(Some(tops))
}

/// Notes a living declaration of a method, unless the method has one that stands as high. Answers
/// whether following superclasses from its class comes to an end.
fn note_top(
    alloc: Global,
    maps: &Maps,
    heights: &mut IndexMap<Id, usize>,
    tops: &mut IndexMap<Id, Top>,
    decl: &Id,
) -> Result<bool, OutOfMemory>
    requires { AreHeights maps.now heights.old.entries }
    ensures tops { IfOk result (λ ends. ends ≡ true → (decls : List Id) → AreTops maps.now decls tops.old.entries
        → AreTops maps.now (decls ++ decl.now ∷ []) tops.new.entries) }
    ensures known { OnOk result (AreHeights maps.now heights.new.entries) }
{
    let Some(method) = maps.living_of(decl) else {
        return Ok(true);
    };
    let Some(owner) = maps.owner(decl) else {
        return Ok(true);
    };
    let Some(height) = height(alloc, maps, heights, owner)? else {
        return Ok(false);
    };
    put_top(
        tops,
        method,
        Top {
            height,
            decl: *decl,
        },
    )?;
    Ok(true)
}

/// Gives a method a declaration, unless it has one that goes first.
fn put_top(tops: &mut IndexMap<Id, Top>, method: Id, top: Top) -> Result<(), OutOfMemory>
    ensures { OnOk result ((at : Id) → map.get (tops_of tops.new.entries) at
        ≡ cond (same_id at method) (Some (upper (map.get (tops_of tops.old.entries) method) top)) (map.get (tops_of tops.old.entries) at)) }
{
    let first = match tops.get(&method) {
        Some(met) => upper(met, top),
        None => top,
    };
    let _ = tops.insert(method, first)?;
    Ok(())
}

/// The first of two declarations.
fn upper(met: &Top, top: Top) -> Top
    ensures { result ≡ upper (Some met.now) top }
{
    if top < *met { top } else { *met }
}
