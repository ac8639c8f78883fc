//! Where many steps lead.
ghost use Rattle.std.specs.Prelude.{◌≡◌, ◌<◌, ◌≤◌, ℕ, All, IfOk, OnOk, length, map, slice_index};
ghost use Rattle.jav_scope.specs.ascent.Walked.{LeadsFar};

use mol_base::OutOfMemory;
use std::alloc::Global;

/// Of each place of a list, where as many steps lead from it as the list is long, or more: a step leads to the place that stands
/// there. The time is near-linear. `Err` is want of memory.
pub fn far(alloc: Global, links: &[u32]) -> Result<Vec<u32>, OutOfMemory>
    requires { All (λ link. link < length links.now) links.now }
    ensures { IfOk result (λ far. LeadsFar links.now far.items) }
{
    let mut far = once(alloc, links)?;
    let mut steps: usize = 1;
    while steps < links.len() {
        far = twice(alloc, far.as_slice())?;
        steps *= 2;
    }
    Ok(far)
}

/// One step from each place.
fn once(alloc: Global, links: &[u32]) -> Result<Vec<u32>, OutOfMemory>
    ensures { IfOk result (λ far. far.items ≡ links.now) }
{
    let mut far = Vec::new(alloc);
    far.extend_from_slice(links)?;
    Ok(far)
}

/// Twice as many steps from each place.
fn twice(alloc: Global, far: &[u32]) -> Result<Vec<u32>, OutOfMemory>
    requires { All (λ place. place < length far.now) far.now }
    ensures { IfOk result (λ twice. twice.items ≡ map (slice_index far.now) far.now) }
{
    let mut twice = Vec::new(alloc);
    for place in far {
        twice.push(far[*place as usize])?;
    }
    Ok(twice)
}
