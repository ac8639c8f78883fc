//! Which names are in scope, and the place of the nearest of each.
ghost use Rattle.std.specs.Prelude.{◌≡◌, ◌-◌, ◌++◌, ◌∷◌, [], OnOk, OnErr, length, take};
ghost use Rattle.mol_spell_places.specs.scope_names.Scopes.{names_in, AreNearest};

use crate::scope_names::nearest::{put, put_back};
use indexmap::IndexMap;
use mol_base::OutOfMemory;

/// A name in scope, and the place of the nearest of its name when it came into scope.
#[derive(Clone, Copy)]
pub(crate) struct InScope<'a> {
    pub name: &'a str,
    pub hidden: Option<usize>,
}

/// A name comes into scope. For want of memory nothing changes.
pub(crate) fn enter<'a>(
    in_scope: &mut Vec<InScope<'a>>,
    nearest: &mut IndexMap<&'a str, Option<usize>>,
    name: &'a str,
) -> Result<(), OutOfMemory>
    requires { AreNearest in_scope.old.items nearest.old.entries }
    ensures stands { AreNearest in_scope.new.items nearest.new.entries }
    ensures ok { OnOk result (names_in in_scope.new.items ≡ names_in in_scope.old.items ++ name.now ∷ []) }
    ensures err { OnErr result (in_scope.new.items ≡ in_scope.old.items) }
{
    in_scope.reserve(1)?;
    let hidden = put(nearest, name, in_scope.len())?;
    in_scope.push(InScope { name, hidden }).unwrap();
    Ok(())
}

/// The last name in scope, if there is one, leaves it. The nearest of this name is then the one that it hid. It takes no memory.
fn leave(in_scope: &mut Vec<InScope<'_>>, nearest: &mut IndexMap<&str, Option<usize>>)
    requires { AreNearest in_scope.old.items nearest.old.entries }
    ensures stands { AreNearest in_scope.new.items nearest.new.entries }
    ensures scope { in_scope.new.items ≡ take (length in_scope.old.items - 1) in_scope.old.items }
{
    if let Some(local) = in_scope.pop() {
        put_back(nearest, local.name, local.hidden);
    }
}

/// This many names stay in scope, those that came into it first. It takes no memory.
pub(crate) fn leave_from(
    in_scope: &mut Vec<InScope<'_>>,
    nearest: &mut IndexMap<&str, Option<usize>>,
    mark: usize,
)
    requires { AreNearest in_scope.old.items nearest.old.entries }
    ensures stands { AreNearest in_scope.new.items nearest.new.entries }
    ensures scope { in_scope.new.items ≡ take mark in_scope.old.items }
{
    while in_scope.len() > mark {
        leave(in_scope, nearest);
    }
}
