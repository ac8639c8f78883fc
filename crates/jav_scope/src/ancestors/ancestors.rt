//! Going up from a class.
ghost use Rattle.std.specs.Prelude.{◌≡◌, length};
ghost use Rattle.jav_names.specs.LookUps.{class_above, is_ancestor};
ghost use Rattle.jav_scope.specs.Entries.{view_in};
ghost use Rattle.jav_scope.specs.ancestors.Steps.{next_up};

use crate::{Found, Scope};

/// Whether the second class is an ancestor of the first: going up from the first meets it, before it comes back to the first
/// (JLS 8.1.4). The scope is made of so many files. It takes no memory, and the time is that of the way up.
pub fn is_ancestor(scope: &Scope<'_>, count: usize, class: u32, above: u32) -> bool
    requires { count ≡ length scope.now }
    ensures { result ≡ is_ancestor (view_in scope.now) class above }
{
    let mut at = class;
    // As many steps as there are classes lead past each ancestor.
    for _step in 0..count {
        match next_up(scope, class, at) {
            None => return false,
            Some(next) => {
                if next == above {
                    return true;
                }
                at = next;
            },
        }
    }
    false
}

/// The next class on the way up from a class: the one that this extends, unless that is the class from which the way begins. Going on
/// from each to the next for as many steps as there are classes meets each ancestor. It takes no memory.
pub fn next_up(scope: &Scope<'_>, from: u32, at: u32) -> Option<u32>
    ensures { result ≡ next_up (view_in scope.now) from at }
{
    let next = class_above(scope, at)?;
    if next == from {
        return None;
    }
    Some(next)
}

/// The class that a class extends.
fn class_above(scope: &Scope<'_>, class: u32) -> Option<u32>
    ensures { result ≡ class_above (view_in scope.now) class }
{
    match scope.superclass_of(class) {
        Found::Found(above) => Some(above),
        Found::Outside => None,
        Found::NotFound => None,
    }
}
