//! Paths of source files.
ghost use Rattle.std.specs.Prelude.{◌≡◌, map, IfOk};
ghost use Rattle.mol_base.specs.Paths as spec;

use crate::OutOfMemory;
use std::alloc::Global;

/// The path of the file of a class, relative to the folder of its sources: the package with `/` for each
/// `.`, then `/`, the name and `.java`.
///
/// The package is names joined by `.`, the name is the simple one; any bytes are taken.
/// `Err` is want of memory.
pub fn path_of(alloc: Global, package: &[u8], name: &[u8]) -> Result<Vec<u8>, OutOfMemory>
    ensures { IfOk result (λ path. path.items ≡ spec.path_of «package».now name.now) }
{
    let mut path = slashes_for_dots(alloc, package)?;
    path.push(b'/')?;
    path.extend_from_slice(name)?;
    path.extend_from_slice(b".java")?;
    Ok(path)
}

/// The bytes with `/` for each `.`.
fn slashes_for_dots(alloc: Global, bytes: &[u8]) -> Result<Vec<u8>, OutOfMemory>
    ensures { IfOk result (λ path. path.items ≡ map spec.slash_for_dot bytes.now) }
{
    Ok(
        bytes
            .iter()
            .map(|byte| if *byte == b'.' { b'/' } else { *byte })
            .collect(alloc)?,
    )
}
