//! Methods with a declaration that does not stand below the highest.
ghost use Rattle.std.specs.Prelude.{◌≡◌, ◌||◌, IfOk, OnOk};
ghost use Rattle.std.specs.List.{list_any};
ghost use Rattle.mol_base.specs.declared.ident.Id.{Id as Identity};
ghost use Rattle.mol_table_rules.specs.Program.{same_id};
ghost use Rattle.mol_scope_members.specs.topmost.Highest.{is_under, stands_beside};

use crate::topmost::higher::is_over;
use indexmap::{IndexMap, IndexSet};
use mol_base::{Id, OutOfMemory};
use mol_scope_classes::{Hierarchy, living_method_of};
use mol_table::Table;
use std::alloc::Global;

/// The methods that have such a declaration among these.
pub(crate) fn unordered(
    alloc: Global,
    table: &Table,
    hierarchy: &Hierarchy<'_>,
    tops: &IndexMap<Id, Id>,
    ids: &[Id],
) -> Result<IndexSet<Id>, OutOfMemory>
    requires { hierarchy.now ≡ table.now }
    ensures { IfOk result (λ methods. (method : Identity) → list_any (same_id method) methods.keys
        ≡ list_any (stands_beside table.now tops.now.entries method) ids.now) }
{
    let mut methods = IndexSet::new(alloc);
    for id in ids {
        note_beside(table, hierarchy, tops, &mut methods, id)?;
    }
    Ok(methods)
}

/// Notes the method of a living declaration that does not stand below the highest.
fn note_beside(
    table: &Table,
    hierarchy: &Hierarchy<'_>,
    tops: &IndexMap<Id, Id>,
    methods: &mut IndexSet<Id>,
    decl: &Id,
) -> Result<(), OutOfMemory>
    requires { hierarchy.now ≡ table.now }
    ensures { OnOk result ((method : Identity) → list_any (same_id method) methods.new.keys
        ≡ (list_any (same_id method) methods.old.keys || stands_beside table.now tops.now.entries method decl.now)) }
{
    let Some(method) = living_method_of(table, decl) else {
        return Ok(());
    };
    if is_under(table, hierarchy, tops, &method, decl) {
        return Ok(());
    }
    let _ = methods.insert(method)?;
    Ok(())
}

/// Whether a declaration stands below the highest of a method.
fn is_under(
    table: &Table,
    hierarchy: &Hierarchy<'_>,
    tops: &IndexMap<Id, Id>,
    method: &Id,
    decl: &Id,
) -> bool
    requires { hierarchy.now ≡ table.now }
    ensures { result ≡ is_under table.now tops.now.entries method.now decl.now }
{
    match tops.get(method) {
        Some(top) => is_over(table, hierarchy, decl, top),
        None => false,
    }
}
