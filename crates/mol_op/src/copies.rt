//! Copies of the parts of operations.
ghost use Rattle.std.specs.Prelude.{◌≡◌, IfOk};

use mol_base::{List, OutOfMemory};
use mol_values_types::{IBody, IExpr, IType, Param};
use std::alloc::Global;

/// Parameters that equal these.
pub fn copy_params(alloc: Global, items: &[Param]) -> Result<List<Param>, OutOfMemory>
    ensures { IfOk result (λ all. all ≡ items.now) }
{
    let mut all = List::new(alloc);
    for item in items {
        all.add(item.copy(alloc)?)?;
    }
    Ok(all)
}

/// A superclass that equals the one there is.
pub fn copy_parent(alloc: Global, parent: &Option<IType>) -> Result<Option<IType>, OutOfMemory>
    ensures { IfOk result (λ o. o ≡ parent.now) }
{
    match parent {
        Some(parent) => Ok(Some(parent.copy(alloc)?)),
        None => Ok(None),
    }
}

/// A first value that equals the one there is.
pub fn copy_value(alloc: Global, value: &Option<IExpr>) -> Result<Option<IExpr>, OutOfMemory>
    ensures { IfOk result (λ o. o ≡ value.now) }
{
    match value {
        Some(value) => Ok(Some(value.copy(alloc)?)),
        None => Ok(None),
    }
}

/// A body that equals the one there is.
pub fn copy_body(alloc: Global, body: &Option<IBody>) -> Result<Option<IBody>, OutOfMemory>
    ensures { IfOk result (λ o. o ≡ body.now) }
{
    match body {
        Some(body) => Ok(Some(body.copy(alloc)?)),
        None => Ok(None),
    }
}
