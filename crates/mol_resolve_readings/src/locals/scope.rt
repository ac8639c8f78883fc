//! Which locals are in scope, and the nearest of each name.
ghost use Rattle.std.specs.Prelude.{◌≡◌, ◌-◌, ◌++◌, ◌∷◌, [], OnOk, OnErr, length, take};
ghost use Rattle.mol_resolve_readings.specs.locals.Scoped.{numbers, Stands};

use crate::locals::local::{InScope, Local};
use crate::locals::nearest::{put, put_back};
use indexmap::IndexMap;
use mol_base::{OutOfMemory, Text, number_of};
use std::alloc::Global;

/// A local is declared, and comes into scope by its number, which is the next. For want of memory nothing changes.
pub(crate) fn enter(
    alloc: Global,
    declared: &mut Vec<Local>,
    in_scope: &mut Vec<InScope>,
    nearest: &mut IndexMap<Text, Option<u32>>,
    local: Local,
) -> Result<(), OutOfMemory>
    requires { Stands declared.old.items in_scope.old.items nearest.old.entries }
    ensures stands { Stands declared.new.items in_scope.new.items nearest.new.entries }
    ensures ok { OnOk result ((declared.new.items ≡ declared.old.items ++ local ∷ [])
        × (numbers in_scope.new.items ≡ numbers in_scope.old.items ++ length declared.old.items ∷ [])) }
    ensures err { OnErr result ((declared.new.items ≡ declared.old.items) × (in_scope.new.items ≡ in_scope.old.items)) }
{
    let number = number_of(declared.len())?;
    let name = local.name.copy(alloc)?;
    declared.reserve(1)?;
    in_scope.reserve(1)?;
    let hidden = put(nearest, name, number)?;
    declared.push(local).unwrap();
    in_scope.push(InScope { number, hidden }).unwrap();
    Ok(())
}

/// The last local in scope, if there is one, leaves it. The nearest of its name is then the one that it hid. It takes no memory.
fn leave(declared: &[Local], in_scope: &mut Vec<InScope>, nearest: &mut IndexMap<Text, Option<u32>>)
    requires { Stands declared.now in_scope.old.items nearest.old.entries }
    ensures stands { Stands declared.now in_scope.new.items nearest.new.entries }
    ensures scope { in_scope.new.items ≡ take (length in_scope.old.items - 1) in_scope.old.items }
{
    if let Some(local) = in_scope.pop() {
        put_back(nearest, &declared[local.number as usize].name, local.hidden);
    }
}

/// This many locals stay in scope, those that came into it first. It takes no memory.
pub(crate) fn leave_from(
    declared: &[Local],
    in_scope: &mut Vec<InScope>,
    nearest: &mut IndexMap<Text, Option<u32>>,
    mark: usize,
)
    requires { Stands declared.now in_scope.old.items nearest.old.entries }
    ensures stands { Stands declared.now in_scope.new.items nearest.new.entries }
    ensures scope { in_scope.new.items ≡ take mark in_scope.old.items }
{
    while in_scope.len() > mark {
        leave(declared, in_scope, nearest);
    }
}
