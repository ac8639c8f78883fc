//! All pairs that conflict.
ghost use Rattle.std.specs.Prelude.{◌≡◌, IfOk, map};
ghost use Rattle.mol_conflict.specs.Found.{pair_of};
ghost use Rattle.mol_log_rules.specs.Histories.{after};
ghost use Rattle.mol_log_rules.specs.Logs.{history};
ghost use Rattle.mol_merge_rules.specs.PairConflicts.{ArePairs};

use crate::gone::add_gone;
use crate::living::Programs;
use crate::pair::Pair;
use crate::twice::add_twice;
use mol_base::{OutOfMemory, in_order};
use mol_log_writers::Side;
use mol_table::Table;
use std::alloc::Global;

/// All pairs of two logs that conflict, in order, each once.
pub(crate) fn pairs_of(
    alloc: Global,
    base: &Table,
    one: &Side<'_>,
    other: &Side<'_>,
) -> Result<Vec<Pair>, OutOfMemory>
    requires one { one.now.left.now ≡ after base.now (history one.now.writes.now) }
    requires other { other.now.left.now ≡ after base.now (history other.now.writes.now) }
    ensures { IfOk result (λ pairs.
        ArePairs base.now (history one.now.writes.now) (history other.now.writes.now) (map pair_of pairs.items)) }
{
    let ones = one.writes.cells();
    let others = other.writes.cells();
    let after_one = Programs {
        base,
        gone: one.left,
        other: other.left,
    };
    let after_other = Programs {
        base,
        gone: other.left,
        other: one.left,
    };
    let mut found = Vec::new(alloc);
    add_twice(&mut found, one, other, ones)?;
    add_gone(alloc, &mut found, &after_one, others)?;
    add_gone(alloc, &mut found, &after_other, ones)?;
    Ok(in_order(found))
}
