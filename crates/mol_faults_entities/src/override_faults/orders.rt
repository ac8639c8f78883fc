//! The living declarations of methods, in two orders.
ghost use Rattle.std.specs.Prelude.{◌≡◌, ◌<◌, IfOk, length, map};
ghost use Rattle.std.specs.List.Sorted.{IsPermutation, IsSorted};
ghost use Rattle.mol_faults_entities.specs.override_faults.Declarations.{AreDeclared, row_of};
ghost use Rattle.mol_faults_entities.specs.override_faults.Overridden.{AreSorted, IsNext, methods_cmp};

use crate::override_faults::declaration::Declaration;
use crate::override_faults::rows::by_key;
use crate::override_faults::runs::runs;
use mol_base::OutOfMemory;
use mol_scope_classes::Paths;
use mol_table::Table;
use std::alloc::Global;

/// The living declarations of methods that are no constructors.
#[derive(Drop)]
pub(crate) struct Orders<'a> {
    /// By number of parameters, name and position of the class.
    pub by_key: Vec<Declaration<'a>>,
    /// For each of these places the start of the run of declarations of one method that ends there.
    pub runs: Vec<usize>,
    /// By number of parameters, name and method.
    pub by_method: Vec<Declaration<'a>>,
}

impl Orders<'_> {
    /// How many of the first ones are left to look at after the one at a place. A run of the given declaration's method is passed at once.
    pub(crate) fn left_after(&self, row: &Declaration<'_>, last: usize) -> usize
        requires sorted { AreSorted self.now }
        requires within { last < length self.now.by_key.items }
        ensures { IsNext self.now.by_key.items row.now last result }
    {
        if self.by_key[last].method == row.method {
            self.runs[last]
        } else {
            last
        }
    }
}

/// Those of a table, whose classes stand on these paths.
pub(crate) fn orders_of<'a>(
    alloc: Global,
    table: &'a Table,
    paths: &Paths,
) -> Result<Orders<'a>, OutOfMemory>
    ensures each { IfOk result (λ orders. AreDeclared table.now paths.now.positions.entries (map row_of orders.by_key.items)) }
    ensures sorted { IfOk result AreSorted }
{
    let by_key = by_key(alloc, table, paths)?;
    let runs = runs(alloc, by_key.as_slice())?;
    let by_method = by_method(alloc, by_key.as_slice())?;
    Ok(Orders {
        by_key,
        runs,
        by_method,
    })
}

/// Declarations by number of parameters, name and method.
fn by_method<'a>(
    alloc: Global,
    rows: &[Declaration<'a>],
) -> Result<Vec<Declaration<'a>>, OutOfMemory>
    ensures same { IfOk result (λ sorted. IsPermutation rows.now sorted.items) }
    ensures sorted { IfOk result (λ sorted. IsSorted methods_cmp sorted.items) }
{
    let mut sorted = Vec::from_slice(alloc, rows)?;
    sorted.sort_by(|former, latter| former.compare_methods(latter))?;
    Ok(sorted)
}
