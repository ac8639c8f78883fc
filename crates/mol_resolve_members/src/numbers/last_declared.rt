//! Declarations of methods on the way up from a class.
ghost use Rattle.std.specs.Prelude.{◌≡◌, option_copied, option_map};
ghost use Rattle.jav_scope.specs.Answers.{declaration_ref};
ghost use Rattle.jav_scope.specs.Entries.{view_in};
ghost use Rattle.mol_resolve_members.specs.numbers.Ways.{IsWay, last_along, nearest_from, rest_after};

use jav_scope::{Found, MemberRef, Scope};
use mol_base::Text;

/// The last method of this name and number of parameters on the way up from a class.
pub(crate) fn last_declared(
    scope: &Scope<'_>,
    way: &[u32],
    name: &Text,
    arity: u32,
) -> Option<MemberRef>
    requires { IsWay (view_in scope.now) way.now }
    ensures { result ≡ option_map declaration_ref (last_along (view_in scope.now) name.now arity way.now) }
{
    let mut last = None;
    let mut rest = way;
    while let [class, ..] = rest {
        let Some(declared) = nearest(scope, *class, name, arity) else {
            return last;
        };
        let Some(after) = rest_after(rest, declared.unit) else {
            return last;
        };
        last = Some(declared);
        rest = after;
    }
    last
}

/// The nearest method of this name and number of parameters from a class up.
fn nearest(scope: &Scope<'_>, class: u32, name: &Text, arity: u32) -> Option<MemberRef>
    ensures { result ≡ option_map declaration_ref (nearest_from (view_in scope.now) name.now arity class) }
{
    match scope.method_of(class, name, arity) {
        Found::Found(declared) => Some(declared),
        Found::Outside => None,
        Found::NotFound => None,
    }
}

/// What comes after a class.
fn rest_after(classes: &[u32], class: u32) -> Option<&[u32]>
    ensures { option_copied result ≡ rest_after class classes.now }
{
    let mut rest = classes;
    while let [first, after @ ..] = rest {
        if *first == class {
            return Some(after);
        }
        rest = after;
    }
    None
}
