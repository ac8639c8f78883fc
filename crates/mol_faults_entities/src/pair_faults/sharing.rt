//! Pairs of entities at one address.
ghost use Rattle.std.specs.Prelude.{◌≡◌, ◌++◌, IfOk, OnOk};
ghost use Rattle.std.specs.Ordering.{is_eq};
ghost use Rattle.mol_faults_entities.specs.pair_faults.Addresses.{location_cmp};
ghost use Rattle.mol_faults_entities.specs.pair_faults.Sharing.{shared_pairs, shared_with};

use crate::pair_faults::addressed::Addressed;
use crate::pair_faults::pair::{Pair, add_pair, ordered};
use mol_base::OutOfMemory;
use std::alloc::Global;

/// The pairs of entities at one address, where those of one address stand beside each other. The time is that of the rows and the pairs.
pub(crate) fn sharing(alloc: Global, rows: &[Addressed<'_>]) -> Result<Vec<Pair>, OutOfMemory>
    ensures { IfOk result (λ pairs. pairs.items ≡ shared_pairs rows.now) }
{
    let mut pairs = Vec::new(alloc);
    for (place, row) in rows.iter().enumerate() {
        add_sharing(&mut pairs, row, &rows[place + 1..])?;
    }
    Ok(pairs)
}

/// Adds the pairs of an entity with those that follow at its address.
fn add_sharing(
    pairs: &mut Vec<Pair>,
    row: &Addressed<'_>,
    later: &[Addressed<'_>],
) -> Result<(), OutOfMemory>
    ensures { OnOk result (pairs.new.items ≡ pairs.old.items ++ shared_with row.now later.now) }
{
    for next in later {
        if !share(row, next) {
            return Ok(());
        }
        add_pair(pairs, ordered(row.id, next.id))?;
    }
    Ok(())
}

/// Whether two entities have one address.
fn share(former: &Addressed<'_>, latter: &Addressed<'_>) -> bool
    ensures { result ≡ is_eq (location_cmp former.now latter.now) }
{
    former.address.compare(&latter.address).is_eq()
}
