//! Runs of neighbours that declare one method.
ghost use Rattle.std.specs.Prelude.{◌+◌, ◌≤◌, ◌<◌, IfOk, length};
ghost use Rattle.mol_faults_entities.specs.override_faults.Overridden.{AreRuns, IsRun};

use crate::override_faults::declaration::Declaration;
use mol_base::OutOfMemory;
use std::alloc::Global;

/// For each place the start of the run of declarations of one method that ends there.
pub(crate) fn runs(alloc: Global, rows: &[Declaration<'_>]) -> Result<Vec<usize>, OutOfMemory>
    ensures { IfOk result (λ runs. AreRuns rows.now runs.items) }
{
    let mut runs = Vec::new(alloc);
    let mut start = 0;
    for place in 0..rows.len() {
        start = run_start(rows, start, place);
        runs.push(start)?;
    }
    Ok(runs)
}

/// The start of the run that ends at a place, by that of the run before it.
fn run_start(rows: &[Declaration<'_>], start: usize, place: usize) -> usize
    requires place { place < length rows.now }
    requires start { start ≤ place }
    requires run { IsRun rows.now start place }
    ensures within { result ≤ place }
    ensures run { IsRun rows.now result (place + 1) }
{
    if rows[start].method == rows[place].method {
        start
    } else {
        place
    }
}
