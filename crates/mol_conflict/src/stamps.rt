//! The stamps of conflicts.
ghost use Rattle.std.specs.Prelude.{◌≡◌, IfOk};
ghost use Rattle.mol_base.specs.Order.{stamp_cmp};
ghost use Rattle.mol_conflict.specs.Made.{writers_in};
ghost use Rattle.mol_log_rules.specs.Logs.{history};
ghost use Rattle.mol_merge_rules.specs.Conflicts.{both_stamps, stamps_of};

use crate::living::lives;
use crate::pair::Pair;
use mol_base::{List, OutOfMemory, Stamp};
use mol_log_writers::Side;
use std::alloc::Global;
use std::cmp::Ordering;

/// The last writers of what a pair is of: of a cell in both logs; for what is gone after one log, of its life in that log, and in the other
/// log of any cell of it, or of the cell that uses it. It takes no memory.
pub(crate) fn writers_of(
    one: &Side<'_>,
    other: &Side<'_>,
    pair: &Pair,
) -> (Option<Stamp>, Option<Stamp>)
    ensures { result ≡ writers_in one.now.left.now other.now.left.now (history one.now.writes.now) (history other.now.writes.now) pair.now }
{
    match pair {
        Pair::Twice(at) => (one.writes.writer(at), other.writes.writer(at)),
        Pair::GoneChanged(id) => {
            if lives(one.left, id) {
                (other.life_writer(id), one.writes.entity_writer(id))
            } else {
                (one.life_writer(id), other.writes.entity_writer(id))
            }
        }
        Pair::GoneUsed(id, at) => {
            if lives(one.left, id) {
                (other.life_writer(id), one.writes.writer(at))
            } else {
                (one.life_writer(id), other.writes.writer(at))
            }
        }
    }
}

/// Of two stamps those that are there, ascending, each once. `Err` is want of memory.
pub(crate) fn ascending(
    alloc: Global,
    first: Option<Stamp>,
    second: Option<Stamp>,
) -> Result<List<Stamp>, OutOfMemory>
    ensures { IfOk result (λ stamps. stamps ≡ stamps_of first second) }
{
    match (first, second) {
        (Some(first), Some(second)) => both_ascending(alloc, first, second),
        (Some(stamp), None) => List::from_slice(alloc, &[stamp]),
        (None, Some(stamp)) => List::from_slice(alloc, &[stamp]),
        (None, None) => Ok(List::new(alloc)),
    }
}

/// Two stamps, ascending, each once.
fn both_ascending(alloc: Global, first: Stamp, second: Stamp) -> Result<List<Stamp>, OutOfMemory>
    ensures { IfOk result (λ stamps. stamps ≡ both_stamps (stamp_cmp first second) first second) }
{
    match first.cmp(&second) {
        Ordering::Less => List::from_slice(alloc, &[first, second]),
        Ordering::Equal => List::from_slice(alloc, &[first]),
        Ordering::Greater => List::from_slice(alloc, &[second, first]),
    }
}
