//! For each method the one declaration that may be its topmost one: the first that lives and that none stands above but such as are as high.
ghost use Rattle.std.specs.Prelude.{◌≡◌, IfOk, OnOk, Some, cond};
ghost use Rattle.mol_base.specs.declared.ident.Id.{Id as Identity};
ghost use Rattle.mol_table_rules.specs.Program.{same_id};
ghost use Rattle.mol_table_rules.specs.Rules.{IsProgram};
ghost use Rattle.mol_scope_members.specs.topmost.Highest.{AreHighest, first_or_higher, noted_after, top_in};

use crate::topmost::higher::higher;
use indexmap::IndexMap;
use mol_base::{Id, OutOfMemory};
use mol_scope_classes::{Hierarchy, living_method_of};
use mol_table::Table;
use std::alloc::Global;

/// The declarations by their methods. The time is that of some look-ups for each identity.
pub(crate) fn highest(
    alloc: Global,
    table: &Table,
    hierarchy: &Hierarchy<'_>,
    ids: &[Id],
) -> Result<IndexMap<Id, Id>, OutOfMemory>
    requires rules { IsProgram table.now }
    requires same { hierarchy.now ≡ table.now }
    ensures { IfOk result (λ tops. AreHighest table.now ids.now tops.entries) }
{
    let mut tops = IndexMap::new(alloc);
    for id in ids {
        note_highest(table, hierarchy, &mut tops, id)?;
    }
    Ok(tops)
}

/// Notes a living declaration, where it is the first of its method or stands higher than what was noted.
fn note_highest(
    table: &Table,
    hierarchy: &Hierarchy<'_>,
    tops: &mut IndexMap<Id, Id>,
    decl: &Id,
) -> Result<(), OutOfMemory>
    requires { hierarchy.now ≡ table.now }
    ensures { OnOk result ((method : Identity) → top_in tops.new.entries method
        ≡ noted_after table.now method (top_in tops.old.entries method) decl.now) }
{
    match living_method_of(table, decl) {
        Some(method) => put_highest(table, hierarchy, tops, method, decl),
        None => Ok(()),
    }
}

/// Notes a declaration of a method, where it is its first or stands higher than what was noted.
fn put_highest(
    table: &Table,
    hierarchy: &Hierarchy<'_>,
    tops: &mut IndexMap<Id, Id>,
    method: Id,
    decl: &Id,
) -> Result<(), OutOfMemory>
    requires { hierarchy.now ≡ table.now }
    ensures { OnOk result ((at : Identity) → top_in tops.new.entries at
        ≡ cond (same_id at method) (Some (first_or_higher table.now (top_in tops.old.entries at) decl.now)) (top_in tops.old.entries at)) }
{
    let top = match tops.get(&method) {
        Some(noted) => higher(table, hierarchy, noted, decl),
        None => *decl,
    };
    let _ = tops.insert(method, top)?;
    Ok(())
}
