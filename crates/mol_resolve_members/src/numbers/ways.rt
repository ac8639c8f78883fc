//! The way from a class up.
ghost use Rattle.std.specs.Prelude.{◌≡◌, ◌≢◌, ◌<◌, ℕ, All, IfOk, OnOk, Some, length};
ghost use Rattle.jav_scope.specs.Entries.{view_in};
ghost use Rattle.jav_names.specs.LookUps.{class_above, way as way_from};
ghost use Rattle.mol_resolve_members.specs.numbers.Marks.{unmarked};

use jav_scope::{Found, Scope};
use mol_base::OutOfMemory;
use std::alloc::Global;

/// A class and its superclasses in turn, up to one that was met already (JLS 8.1.4). Of each class it is noted which walk met it last;
/// this one has a number that none of them had. The time is linear in the number of these classes.
pub(crate) fn way(
    alloc: Global,
    scope: &Scope<'_>,
    met: &mut Vec<u32>,
    walk: u32,
    class: u32,
) -> Result<Vec<u32>, OutOfMemory>
    requires size { length met.old.items ≡ length scope.now }
    requires class { class < length scope.now }
    requires unmet { All (λ mark. mark ≢ walk) met.old.items }
    ensures way { IfOk result (λ classes. classes.items ≡ way_from (view_in scope.now) class) }
    ensures size { OnOk result (length met.new.items ≡ length met.old.items) }
    ensures unmet { OnOk result ((later : ℕ) → later ≢ walk → All (λ mark. mark ≢ later) met.old.items
        → All (λ mark. mark ≢ later) met.new.items) }
{
    let mut way = Vec::new(alloc);
    let mut at = class;
    // Each step leads to another class, so there are no more steps than classes.
    let steps = met.len();
    for _step in 0..steps {
        met[at as usize] = walk;
        way.push(at)?;
        match above_unmet(scope, met.as_slice(), walk, at) {
            Some(above) => at = above,
            None => return Ok(way),
        }
    }
    way.push(at)?;
    Ok(way)
}

/// A class, unless its mark is that of this walk.
fn unmarked(met: &[u32], walk: u32, class: u32) -> Option<u32>
    requires { class < length met.now }
    ensures { result ≡ unmarked met.now walk (Some class) }
{
    if met[class as usize] == walk {
        None
    } else {
        Some(class)
    }
}

/// The class that a class extends, unless it is none of the scope or this walk has met it.
fn above_unmet(scope: &Scope<'_>, met: &[u32], walk: u32, class: u32) -> Option<u32>
    requires { length met.now ≡ length scope.now }
    ensures { result ≡ unmarked met.now walk (class_above (view_in scope.now) class) }
{
    match scope.superclass_of(class) {
        Found::Found(above) => unmarked(met, walk, above),
        Found::Outside => None,
        Found::NotFound => None,
    }
}
