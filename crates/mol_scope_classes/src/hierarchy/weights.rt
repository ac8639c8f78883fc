//! Which places of a forest have most below them.
ghost use Rattle.std.specs.Prelude.{◌≡◌, IfOk, length};
ghost use Rattle.mol_scope_classes.specs.hierarchy.Forest.{ArePlaces};

use crate::hierarchy::place::Place;
use mol_base::OutOfMemory;
use std::alloc::Global;

/// Of each place whether none next below the same one has more places below it. One at the top counts as such. It only tells along which
/// classes paths had best lead: whoever goes up from a class then changes paths no more often than the number of classes has binary digits.
pub(crate) fn heaviest(alloc: Global, places: &[Place]) -> Result<Vec<bool>, OutOfMemory>
    requires { ArePlaces places.now }
{
    let sizes = sizes(alloc, places)?;
    let most = most_below(alloc, places, sizes.as_slice())?;
    let mut heaviest = Vec::new(alloc);
    for (number, place) in places.iter().enumerate() {
        heaviest.push(place.above == number || sizes[number] == most[place.above])?;
    }
    Ok(heaviest)
}

/// How many places there are from each downwards.
fn sizes(alloc: Global, places: &[Place]) -> Result<Vec<usize>, OutOfMemory>
    requires { ArePlaces places.now }
    ensures { IfOk result (λ sizes. length sizes.items ≡ length places.now) }
{
    let mut sizes = Vec::from_elem(alloc, 1usize, places.len())?;
    // Those below a place have greater numbers.
    for number in (0..places.len()).rev() {
        let above = places[number].above;
        let more = if above == number { 0 } else { sizes[number] };
        sizes[above] = sizes[above].saturating_add(more);
    }
    Ok(sizes)
}

/// The greatest of the sizes of the places next below each.
fn most_below(alloc: Global, places: &[Place], sizes: &[usize]) -> Result<Vec<usize>, OutOfMemory>
    requires places { ArePlaces places.now }
    requires sizes { length sizes.now ≡ length places.now }
    ensures { IfOk result (λ most. length most.items ≡ length places.now) }
{
    let mut most = Vec::from_elem(alloc, 0usize, places.len())?;
    for (number, place) in places.iter().enumerate() {
        let size = if place.above == number {
            0
        } else {
            sizes[number]
        };
        most[place.above] = size.max(most[place.above]);
    }
    Ok(most)
}
