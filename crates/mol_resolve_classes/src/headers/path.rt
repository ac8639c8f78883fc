//! Paths of files.
ghost use Rattle.std.specs.Prelude.{◌≡◌, ℕ, List, IfOk};
ghost use Rattle.jav_scope.specs.declared.source.SourceUnit.{SourceUnit};
ghost use Rattle.mol_resolve_classes.specs.headers.Headers.{fails};
ghost use Rattle.mol_resolve_rules.specs.FaultKinds as kind;

use jav_scope::SourceUnit;
use mol_base::{OutOfMemory, path_of};
use std::alloc::Global;

/// Whether the path of a file is not that of its package and class (JLS 7.6). It is no matter which files there are besides.
/// `Err` is want of memory.
pub fn path_differs(alloc: Global, source: &SourceUnit) -> Result<bool, OutOfMemory>
    ensures { IfOk result (λ differs. (sources : List SourceUnit) (number : ℕ)
        → differs ≡ fails sources kind.path_differs (number, source.now)) }
{
    let unit = &source.unit;
    let path = path_of(alloc, unit.package.bytes(), unit.class.name.bytes())?;
    Ok(source.path.bytes() != path.as_slice())
}
