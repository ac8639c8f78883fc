//! The order of files by their paths.
ghost use Rattle.std.specs.Prelude.{◌≡◌, IfOk, length};
ghost use Rattle.mol_resolve_rules.specs.Numbering.{below};
ghost use Rattle.mol_resolve_members.specs.places.Orders.{path_at, numbers_by_path};

use jav_scope::SourceUnit;
use mol_base::{OutOfMemory, number_of};
use std::alloc::Global;

/// The numbers of source files in the order of their paths, byte by byte; those of one path in the order in which they stand. The time
/// is that of a sort. `Err` is want of memory.
pub fn by_path(alloc: Global, sources: &[SourceUnit]) -> Result<Vec<u32>, OutOfMemory>
    ensures { IfOk result (λ order. order.items ≡ numbers_by_path sources.now) }
{
    let mut order = numbers_of(alloc, sources)?;
    order.sort_by(|first, second| path_at(sources, *first).cmp(&path_at(sources, *second)))?;
    Ok(order)
}

/// The numbers of source files, from 0.
fn numbers_of(alloc: Global, sources: &[SourceUnit]) -> Result<Vec<u32>, OutOfMemory>
    ensures { IfOk result (λ numbers. numbers.items ≡ below (length sources.now)) }
{
    let mut numbers = Vec::new(alloc);
    for place in 0..sources.len() {
        let number = number_of(place)?;
        numbers.push(number)?;
    }
    Ok(numbers)
}

/// The path of the file of this number.
fn path_at(sources: &[SourceUnit], number: u32) -> &[u8]
    ensures { result.now ≡ path_at sources.now number }
{
    match sources.get(number as usize) {
        Some(source) => source.path.bytes(),
        None => &[],
    }
}
