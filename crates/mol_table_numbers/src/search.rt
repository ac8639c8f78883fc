//! The topmost declarations of methods, looked for among all declarations.
ghost use Rattle.std.specs.Prelude.{◌≡◌, ◌||◌, not, IfOk};
ghost use Rattle.std.specs.List.{list_any};
ghost use Rattle.mol_table_rules.specs.Ancestors.{unmet, way};
ghost use Rattle.mol_table_rules.specs.Counting.{is_of, living_of};
ghost use Rattle.mol_table_rules.specs.Faults.{is_above, is_topmost};
ghost use Rattle.mol_table_numbers.specs.Looked.{HasTops};
ghost use Rattle.mol_table.specs.Maps.{program_in, Stands};
ghost use Rattle.mol_values_types.specs.Order.{id_eq};
ghost use Rattle.mol_table_rules.specs.Program.{owner_at};
ghost use Rattle.mol_table_rules.specs.Renumber.{topmost};

use crate::heights::living_parent;
use crate::tops::Top;
use indexmap::IndexMap;
use mol_base::{Id, OutOfMemory};
use mol_table::Maps;
use std::alloc::Global;

/// A class and then its ancestors, the nearest first.
fn way(alloc: Global, maps: &Maps, class: Id) -> Result<Vec<Id>, OutOfMemory>
    requires { Stands maps.now }
    ensures { IfOk result (λ classes. classes.items ≡ way (program_in maps.now) class) }
{
    let mut classes = Vec::new(alloc);
    let mut at = Some(class);
    for _ in 0..maps.known.len() + 1 {
        let Some(next) = at else {
            return Ok(classes);
        };
        classes.push(next)?;
        at = unmet(&classes, living_parent(maps, &next));
    }
    Ok(classes)
}

/// Whether the class of the second declaration is that of the first, or an ancestor of it.
fn is_above(alloc: Global, maps: &Maps, below: &Id, decl: &Id) -> Result<bool, OutOfMemory>
    requires { Stands maps.now }
    ensures { IfOk result (λ is. is ≡ is_above (program_in maps.now) (owner_at (program_in maps.now) below.now) (owner_at (program_in maps.now) decl.now)) }
{
    let Some(class) = maps.owner(below) else {
        return Ok(false);
    };
    let Some(above) = maps.owner(decl) else {
        return Ok(false);
    };
    let classes = way(alloc, maps, class)?;
    Ok(is_met(&classes, &above))
}

/// Whether this is a living declaration of the method.
fn declares(maps: &Maps, decl: &Id, method: &Id) -> bool
    ensures { result ≡ is_of method.now (living_of (program_in maps.now) decl.now) }
{
    match maps.living_of(decl) {
        Some(own) => *method == own,
        None => false,
    }
}

/// Whether the class of a declaration is that of another one, or an ancestor of it, where the other is
/// a living one of the method.
fn is_above_living(
    alloc: Global,
    maps: &Maps,
    method: &Id,
    decl: &Id,
    below: &Id,
) -> Result<bool, OutOfMemory>
    requires { Stands maps.now }
    ensures { IfOk result (λ is. is ≡ (not (is_of method.now (living_of (program_in maps.now) below.now))
        || is_above (program_in maps.now) (owner_at (program_in maps.now) below.now) (owner_at (program_in maps.now) decl.now))) }
{
    if declares(maps, below, method) {
        is_above(alloc, maps, below, decl)
    } else {
        Ok(true)
    }
}

/// Whether this is a topmost declaration of the method.
fn is_topmost(alloc: Global, maps: &Maps, method: &Id, decl: &Id) -> Result<bool, OutOfMemory>
    requires { Stands maps.now }
    ensures { IfOk result (λ is. is ≡ is_topmost (program_in maps.now) method.now decl.now) }
{
    if !declares(maps, decl, method) {
        return Ok(false);
    }
    for below in maps.known.keys().as_slice() {
        if !is_above_living(alloc, maps, method, decl, below)? {
            return Ok(false);
        }
    }
    Ok(true)
}

/// The topmost declaration of a method, if it has one.
fn topmost(alloc: Global, maps: &Maps, method: &Id) -> Result<Option<Id>, OutOfMemory>
    requires { Stands maps.now }
    ensures { IfOk result (λ top. top ≡ topmost (program_in maps.now) method.now) }
{
    // The known identities differ.
    let _size = maps.known.len();
    for id in maps.known.keys().as_slice() {
        if is_topmost(alloc, maps, method, id)? {
            return Ok(Some(*id));
        }
    }
    Ok(None)
}

/// The topmost declaration of each method, by its definition. The time is that of a pass over all
/// identities for each living declaration, and of one more for each declaration of its method that is
/// tried, which goes up from each living declaration of the method.
pub(crate) fn tops_by_search(alloc: Global, maps: &Maps) -> Result<IndexMap<Id, Top>, OutOfMemory>
    requires { Stands maps.now }
    ensures { IfOk result (λ tops. HasTops (program_in maps.now) tops.entries) }
{
    let mut tops = IndexMap::new(alloc);
    for id in maps.known.keys().as_slice() {
        if let Some(method) = maps.living_of(id) {
            if let Some(decl) = topmost(alloc, maps, &method)? {
                let _ = tops.insert(method, Top { height: 0, decl })?;
            }
        }
    }
    Ok(tops)
}

/// The next class, unless it was met already.
fn unmet(met: &[Id], next: Option<Id>) -> Option<Id>
    ensures { result ≡ unmet met.now next }
{
    match next {
        Some(class) => {
            if is_met(met, &class) {
                None
            } else {
                Some(class)
            }
        },
        None => None,
    }
}

/// Whether a class was met.
fn is_met(met: &[Id], class: &Id) -> bool
    ensures { result ≡ list_any (λ other. id_eq class.now other) met.now }
{
    met.iter().any(|other| *class == *other)
}
