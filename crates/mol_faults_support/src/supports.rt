//! The support of a fault.
ghost use Rattle.std.specs.Prelude.{◌≡◌, IfOk, map};
ghost use Rattle.mol_faults_rules.specs.Kept.{kept_fault};
ghost use Rattle.mol_spell_rules.specs.Support.{IsSupport};
ghost use Rattle.mol_faults_rules.specs.Met.{kept_met};
ghost use Rattle.mol_faults_support.specs.Met.{HasMet};
ghost use Rattle.mol_faults_support.specs.Rests.{RestsOn};

use crate::clashes::local_clash;
use crate::declaration_index::DeclarationIndex;
use crate::methods::{apart, outside_name};
use crate::misread::misread;
use crate::missing::missing;
use crate::pairs::{false_override, package_is_class, same_address};
use mol_base::{List, OutOfMemory, in_order};
use mol_faults_rules::{Fault, Met};
use mol_values_types::Cell;
use std::alloc::Global;

/// The cells that a fault of a program rests on, ascending: what its condition looks at first. The program is as it is held: values are
/// gone through before they are tidied. For a misread reference, `met` is what it has to do with: the target that is recorded, and what is
/// read in its place in each file of the tidied program in which it is misread, of these what is of the program and no local. For
/// another fault `met` is not looked at.
///
/// The time is that of some searches, of going up from the classes of declarations, of going through the value of the cell that refers to
/// what is gone, and of sorting the cells. `Err` is want of memory.
pub fn support(
    alloc: Global,
    index: &DeclarationIndex<'_>,
    fault: &Fault,
    met: &[Met],
) -> Result<List<Cell>, OutOfMemory>
    requires { HasMet index.now (kept_fault fault.now) (map kept_met met.now) }
    ensures { IfOk result (IsSupport index.now (kept_fault fault.now)) }
{
    let found = rests_on(alloc, index, fault, met)?;
    let cells = in_order(found);
    Ok(List::from_vec(cells))
}

/// The cells that a fault rests on, in any order.
fn rests_on(
    alloc: Global,
    index: &DeclarationIndex<'_>,
    fault: &Fault,
    met: &[Met],
) -> Result<Vec<Cell>, OutOfMemory>
    requires { HasMet index.now (kept_fault fault.now) (map kept_met met.now) }
    ensures { IfOk result (λ cells. RestsOn index.now (kept_fault fault.now) cells.items) }
{
    let table = index.table();
    match fault {
        Fault::SameAddress(first, second) => same_address(alloc, table, first, second),
        Fault::FalseOverride(first, second) => false_override(alloc, table, first, second),
        Fault::Apart(method) => apart(alloc, index, method),
        Fault::OutsideName(method) => outside_name(alloc, index, method),
        Fault::Missing(at, target) => missing(alloc, index, at, target),
        Fault::Misread(at, _, _) => misread(alloc, index, at, met),
        Fault::LocalClash(at, _) => local_clash(alloc, table, at),
        Fault::PackageIsClass(class, inside) => package_is_class(alloc, class, inside),
    }
}
