//! The entries of a log, applied one after the other.
ghost use Rattle.std.specs.Prelude.{◌≡◌, IfErr, OnOk};
ghost use Rattle.mol_log_rules.specs.Histories.{AppliesOn, after};
ghost use Rattle.mol_log_rules.specs.Logs.{history};
ghost use Rattle.mol_replay.specs.Replays.{IsInapplicable};

use crate::Inapplicable;
use mol_log::Log;
use mol_op::{ApplyFault, Operation};
use mol_table::Table;
use std::alloc::Global;

/// Applies the entries of a log to a program, the first one first, each as an entry of the tag of its own stamp. The digest of the log and
/// the faults of what is left are not looked at.
///
/// Where an entry is refused, or there is no memory, the table is as those before it leave it. The table is changed in place: the time is
/// that of applying each entry once.
pub fn apply_log(alloc: Global, table: &mut Table, log: &Log) -> Result<(), Inapplicable>
    ensures applies { OnOk result (AppliesOn table.old (history log.now)) }
    ensures left { OnOk result (table.new ≡ after table.old (history log.now)) }
    ensures refused { IfErr result (IsInapplicable table.old (history log.now)) }
{
    for entry in log.entries.items() {
        match entry.op.apply(alloc, entry.stamp.tag, table) {
            Ok(()) => {}
            Err(ApplyFault::Refused(why)) => return Err(Inapplicable::At(entry.stamp, why)),
            Err(ApplyFault::OutOfMemory) => return Err(Inapplicable::OutOfMemory),
        }
    }
    Ok(())
}
