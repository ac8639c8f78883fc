//! Classes whose full names are packages.
ghost use Rattle.std.specs.Prelude.{◌≡◌, IfOk, map};
ghost use Rattle.mol_faults_rules.specs.Kept.{kept_fault};
ghost use Rattle.mol_faults_rules.specs.OfKind.{AreAllOfKind};
ghost use Rattle.mol_faults_entities.specs.package_faults.Pairs.{fault_of};

use crate::package_faults::inside::{Inside, pairs};
use crate::package_faults::package_rows::package_rows;
use mol_base::{List, OutOfMemory, in_order};
use mol_faults_rules::Fault;
use mol_table::Table;
use std::alloc::Global;

/// Each pair of classes that live where the full name of the first is the package of the second, or that package is in it as in a package
/// (JLS 7.1), by the first class and then the second. The time is that of sorting the packages, of a look-up among them for each class, and
/// of sorting the pairs. `Err` is want of memory.
pub fn package_is_class(alloc: Global, table: &Table) -> Result<List<Fault>, OutOfMemory>
    ensures { IfOk result (λ faults. AreAllOfKind table.now 7 faults) }
{
    let rows = package_rows(alloc, table)?;
    let found = pairs(alloc, table, rows.as_slice())?;
    faults_of(alloc, in_order(found))
}

/// The faults that pairs are.
fn faults_of(alloc: Global, pairs: Vec<Inside>) -> Result<List<Fault>, OutOfMemory>
    ensures { IfOk result (λ faults. map kept_fault faults ≡ map fault_of pairs.items) }
{
    let mut faults = Vec::new(alloc);
    for pair in pairs.iter() {
        faults.push(Fault::PackageIsClass(pair.class, pair.inside))?;
    }
    Ok(List::from_vec(faults))
}
