//! Classes of one full name.
ghost use Rattle.std.specs.Prelude.{◌≡◌, ◌<◌, ◌==◌, ◌&&◌, ◌||◌, not, false, ℕ, IfOk, length, slice_index_or};
ghost use Rattle.mol_resolve_classes.specs.headers.Headers.{failing};
ghost use Rattle.mol_resolve_rules.specs.FaultKinds as kind;

use crate::headers::full_names::first_of;
use jav_scope::{Scope, SourceUnit};
use mol_base::OutOfMemory;
use std::alloc::Global;

/// Of each class of source files whether another has its full name (JLS 7.6). The scope is made of these files. The time is that of a
/// look-up for each class. `Err` is want of memory.
pub fn doubles(
    alloc: Global,
    scope: &Scope<'_>,
    sources: &[SourceUnit],
) -> Result<Vec<bool>, OutOfMemory>
    requires { scope.now ≡ sources.now }
    ensures { IfOk result (λ doubles. doubles.items ≡ failing kind.duplicate_class sources.now) }
{
    let mut doubles = Vec::from_elem(alloc, false, sources.len())?;
    for (place, source) in sources.iter().enumerate() {
        let first = first_of(scope, place, source);
        mark_both(first, place, &mut doubles);
    }
    Ok(doubles)
}

/// Marks two places where they differ.
fn mark_both(first: usize, place: usize, doubles: &mut Vec<bool>)
    requires first { first < length doubles.old.items }
    requires place { place < length doubles.old.items }
    ensures size { length doubles.new.items ≡ length doubles.old.items }
    ensures marks { (number : ℕ) → number < length doubles.old.items → slice_index_or doubles.new.items number false
        ≡ (slice_index_or doubles.old.items number false || not (first == place) && (first == number || place == number)) }
{
    if first != place {
        doubles[first] = true;
        doubles[place] = true;
    }
}
