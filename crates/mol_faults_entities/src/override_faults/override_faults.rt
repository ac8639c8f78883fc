//! Declarations that would override one another.
ghost use Rattle.std.specs.Prelude.{◌≡◌, IfOk, map};
ghost use Rattle.mol_faults_rules.specs.Kept.{kept_fault};
ghost use Rattle.mol_faults_rules.specs.OfKind.{AreAllOfKind};
ghost use Rattle.mol_scope_classes.specs.hierarchy.Paths.{ArePaths};
ghost use Rattle.mol_faults_entities.specs.override_faults.Overridden.{override_fault};
ghost use Rattle.mol_faults_entities.specs.pair_faults.Pairs.{ArePairsOf};
ghost use Rattle.mol_spell_rules.specs.NameFaults.{FalseOverride};

use crate::override_faults::orders::orders_of;
use crate::override_faults::overridden::overridden;
use crate::pair_faults::Pair;
use mol_base::{List, OutOfMemory, in_order};
use mol_faults_rules::Fault;
use mol_scope_classes::{Hierarchy, Paths};
use mol_table::Table;
use std::alloc::Global;

/// The faults of kind 1, ascending: pairs of living declarations of two methods that are no constructors, with equal names and numbers of
/// parameters, in a class and an ancestor of it, so that one would override the other (JLS 8.4.8.1). The time is that of a few look-ups for
/// each known identity, of sorting the declarations, of the faults, and, for each declaration whose name and number of parameters another
/// method has too, of a search for each path of classes on the way up from its class: no more of them than the number of classes has binary
/// digits, but where superclasses run in a circle. `Err` is want of memory.
pub fn false_override(alloc: Global, table: &Table) -> Result<List<Fault>, OutOfMemory>
    ensures { IfOk result (λ faults. AreAllOfKind table.now 1 faults) }
{
    let unordered = override_pairs(alloc, table)?;
    let pairs = in_order(unordered);
    listed(alloc, pairs.as_slice())
}

/// The pairs of such declarations.
fn override_pairs(alloc: Global, table: &Table) -> Result<Vec<Pair>, OutOfMemory>
    ensures { IfOk result (λ pairs. ArePairsOf (FalseOverride table.now) pairs.items) }
{
    let paths = paths_of(alloc, table)?;
    let orders = orders_of(alloc, table, &paths)?;
    overridden(alloc, table, &paths, &orders)
}

/// The paths of the classes.
fn paths_of(alloc: Global, table: &Table) -> Result<Paths, OutOfMemory>
    ensures { IfOk result (λ paths. ArePaths table.now paths.positions.entries) }
{
    let hierarchy = Hierarchy::new(alloc, table)?;
    hierarchy.paths(alloc)
}

/// The faults of these pairs.
fn listed(alloc: Global, pairs: &[Pair]) -> Result<List<Fault>, OutOfMemory>
    ensures { IfOk result (λ faults. map kept_fault faults ≡ map override_fault pairs.now) }
{
    let mut faults = List::new(alloc);
    for pair in pairs {
        faults.add(Fault::FalseOverride(pair.first, pair.second))?;
    }
    Ok(faults)
}
