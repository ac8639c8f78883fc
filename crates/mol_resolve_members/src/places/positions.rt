//! The places of numbers in an order of them.
ghost use Rattle.std.specs.Prelude.{◌≡◌, ◌<◌, All, IfOk, length};
ghost use Rattle.mol_resolve_members.specs.places.Orders.{positions};

use mol_base::{OutOfMemory, number_of};
use std::alloc::Global;

/// Of each number below the length of an order the first place at which it stands there; the length, where it does not.
pub(crate) fn positions(alloc: Global, order: &[u32]) -> Result<Vec<u32>, OutOfMemory>
    requires { All (λ number. number < length order.now) order.now }
    ensures { IfOk result (λ places. places.items ≡ positions order.now) }
{
    let count = number_of(order.len())?;
    let mut places = Vec::from_elem(alloc, count, order.len())?;
    // From the end, so that the first place of a number is the one that stays.
    for place in (0..count).rev() {
        let number = order[place as usize];
        places[number as usize] = place;
    }
    Ok(places)
}
