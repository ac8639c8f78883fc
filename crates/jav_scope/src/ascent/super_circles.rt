//! Classes whose superclasses run in a circle.
ghost use Rattle.std.specs.Prelude.{◌≡◌, ◌+◌, ◌∷◌, ◌++◌, [], IfOk, length, map};
ghost use Rattle.std.specs.List.{range_with_len};
ghost use Rattle.jav_names.specs.LookUps.{is_in_circle};
ghost use Rattle.jav_scope.specs.Entries.{view_in};
ghost use Rattle.jav_scope.specs.ascent.Circles.{link_up, AreReached};

use crate::ascent::steps::far;
use crate::{Found, Scope};
use mol_base::{OutOfMemory, number_of};
use std::alloc::Global;

/// Of each class of source files, of which there are so many, whether following superclasses from it comes back to it (JLS 8.1.4). The
/// scope is made of these files. The time is near-linear. `Err` is want of memory.
pub fn circles(alloc: Global, scope: &Scope<'_>, count: usize) -> Result<Vec<bool>, OutOfMemory>
    requires { count ≡ length scope.now }
    ensures { IfOk result (λ circles. circles.items
        ≡ map (is_in_circle (view_in scope.now)) (range_with_len 0 (length scope.now))) }
{
    let links = links(alloc, scope, count)?;
    let far = far(alloc, links.as_slice())?;
    reached(alloc, far.as_slice(), count)
}

/// Of each class the one that it extends; the count of classes where that is none of them, and at last the count itself.
fn links(alloc: Global, scope: &Scope<'_>, count: usize) -> Result<Vec<u32>, OutOfMemory>
    requires { count ≡ length scope.now }
    ensures { IfOk result (λ links. links.items
        ≡ map (link_up (view_in scope.now) count) (range_with_len 0 count) ++ count ∷ []) }
{
    let end = number_of(count)?;
    let mut links = Vec::new(alloc);
    for class in 0..end {
        links.push(above(scope, class, end))?;
    }
    links.push(end)?;
    Ok(links)
}

/// The class that a class extends, or this number where that is none of the scope.
fn above(scope: &Scope<'_>, class: u32, end: u32) -> u32
    ensures { result ≡ link_up (view_in scope.now) end class }
{
    match scope.superclass_of(class) {
        Found::Found(above) => above,
        Found::Outside => end,
        Found::NotFound => end,
    }
}

/// Of each number below the count whether it stands among these.
fn reached(alloc: Global, places: &[u32], count: usize) -> Result<Vec<bool>, OutOfMemory>
    ensures { IfOk result (λ reached. AreReached places.now count reached.items) }
{
    let mut reached = Vec::from_elem(alloc, false, count)?;
    for place in places {
        if (*place as usize) < count {
            reached[*place as usize] = true;
        }
    }
    Ok(reached)
}
