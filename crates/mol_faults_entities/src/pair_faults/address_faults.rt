//! Entities at one address.
ghost use Rattle.std.specs.Prelude.{◌≡◌, IfOk, map};
ghost use Rattle.mol_faults_rules.specs.Kept.{kept_fault};
ghost use Rattle.mol_faults_rules.specs.OfKind.{AreAllOfKind};
ghost use Rattle.mol_faults_entities.specs.pair_faults.Pairs.{ArePairsOf};
ghost use Rattle.mol_faults_entities.specs.pair_faults.Sharing.{address_fault};
ghost use Rattle.mol_table_rules.specs.Faults.{SameAddress};

use crate::pair_faults::addressed::by_address;
use crate::pair_faults::pair::Pair;
use crate::pair_faults::sharing::sharing;
use mol_base::{List, OutOfMemory, in_order};
use mol_faults_rules::Fault;
use mol_table::Table;
use std::alloc::Global;

/// The faults of kind 0, ascending: pairs of living classes, fields or declarations that a source names alike (JLS 7.6, 8.3, 8.4.2, 8.8.2),
/// where declarations of methods and of constructors are told apart by their numbers of parameters. The time is that of a few look-ups
/// for each known identity, of sorting what lives, and of the faults. `Err` is want of memory.
pub fn same_address(alloc: Global, table: &Table) -> Result<List<Fault>, OutOfMemory>
    ensures { IfOk result (λ faults. AreAllOfKind table.now 0 faults) }
{
    let unordered = address_pairs(alloc, table)?;
    let pairs = in_order(unordered);
    listed(alloc, pairs.as_slice())
}

/// The pairs of what lives at one address.
fn address_pairs(alloc: Global, table: &Table) -> Result<Vec<Pair>, OutOfMemory>
    ensures { IfOk result (λ pairs. ArePairsOf (SameAddress table.now) pairs.items) }
{
    let rows = by_address(alloc, table)?;
    sharing(alloc, rows.as_slice())
}

/// The faults of these pairs.
fn listed(alloc: Global, pairs: &[Pair]) -> Result<List<Fault>, OutOfMemory>
    ensures { IfOk result (λ faults. map kept_fault faults ≡ map address_fault pairs.now) }
{
    let mut faults = List::new(alloc);
    for pair in pairs {
        faults.add(Fault::SameAddress(pair.first, pair.second))?;
    }
    Ok(faults)
}
