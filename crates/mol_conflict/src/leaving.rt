//! What a log leaves of a base.
ghost use Rattle.std.specs.Prelude.{◌≡◌, IfOk, OnOk};
ghost use Rattle.mol_log_rules.specs.Histories.{AppliesOn, after};
ghost use Rattle.mol_log_rules.specs.Logs.{history, history_of};

use mol_base::OutOfMemory;
use mol_log::{Entry, Log};
use mol_op::apply_fitting;
use mol_table::Table;
use std::alloc::Global;

/// What a log that applies leaves of a base, which stays as it is.
pub(crate) fn left_by(alloc: Global, base: &Table, log: &Log) -> Result<Table, OutOfMemory>
    requires { AppliesOn base.now (history log.now) }
    ensures { IfOk result (λ left. left ≡ after base.now (history log.now)) }
{
    let mut left = base.copy(alloc)?;
    apply_entries(alloc, &mut left, log.entries.items())?;
    Ok(left)
}

/// Applies entries that apply, one after the other.
fn apply_entries(alloc: Global, table: &mut Table, entries: &[Entry]) -> Result<(), OutOfMemory>
    requires { AppliesOn table.old (history_of entries.now) }
    ensures { OnOk result (table.new ≡ after table.old (history_of entries.now)) }
{
    for entry in entries {
        apply_fitting(alloc, &entry.op, entry.stamp.tag, table)?;
    }
    Ok(())
}
