//! Calls of methods (JLS 15.12). Where an argument has no value, the call has none.
ghost use Rattle.std.specs.Prelude.{◌≡◌, IfOk, Option, option_map};
ghost use Rattle.jav_names.specs.seen.Kept.{view_type};
ghost use Rattle.mol_resolve_readings.specs.meant.Kept.{view_meant, view_part};
ghost use Rattle.mol_resolve_readings.specs.meant.Made as spec;

use crate::meant::meant::Meant;
use jav_names::{SeenType, StaticType};
use mol_base::{Id, List, OutOfMemory, Text};
use mol_values_types::{Argument, IExpr};
use std::alloc::Global;

/// A call of a method of `this`, or of a static one, by its identity and the type of its result.
pub fn own_call(
    alloc: Global,
    is_static: bool,
    method: Id,
    result_type: &SeenType,
    args: Option<List<Argument>>,
) -> Result<Option<Meant>, OutOfMemory>
    ensures { IfOk result (λ value. view_part value ≡ option_map (spec.own_call is_static method (view_type result_type.now)) args) }
{
    let Some(args) = args else {
        return Ok(None);
    };
    let tree = if is_static {
        IExpr::StaticCall(method, args)
    } else {
        IExpr::Call(method, args)
    };
    Ok(Some(Meant::of_type(alloc, tree, result_type)?))
}

/// A call of a method on a value; where the value is `this`, of an own one.
pub fn call_of(
    alloc: Global,
    method: Id,
    result_type: &SeenType,
    value: Meant,
    args: Option<List<Argument>>,
) -> Result<Option<Meant>, OutOfMemory>
    ensures { IfOk result (λ made. view_part made ≡ option_map (spec.call_of method (view_type result_type.now) (view_meant value)) args) }
{
    match args {
        Some(args) => {
            let tree = call_tree(method, value, args);
            Ok(Some(Meant::of_type(alloc, tree, result_type)?))
        },
        None => Ok(None),
    }
}

/// The tree of a call of a method on a value. It takes no memory.
fn call_tree(method: Id, value: Meant, args: List<Argument>) -> IExpr
    ensures { result ≡ spec.call_tree method (view_meant value) args }
{
    if value.is_this {
        IExpr::Call(method, args)
    } else {
        IExpr::CallOn(method, value.tree, args)
    }
}

/// A call of a method after `super.`.
pub fn super_call(
    alloc: Global,
    method: Id,
    result_type: &SeenType,
    args: Option<List<Argument>>,
) -> Result<Option<Meant>, OutOfMemory>
    ensures { IfOk result (λ value. view_part value ≡ option_map (spec.super_call method (view_type result_type.now)) args) }
{
    let Some(args) = args else {
        return Ok(None);
    };
    Ok(Some(Meant::of_type(alloc, IExpr::SuperCall(method, args), result_type)?))
}

// ---- methods that are nothing of the program

/// A call without anything before it.
pub fn outside_own_call(
    alloc: Global,
    name: &Text,
    args: Option<List<IExpr>>,
) -> Result<Option<Meant>, OutOfMemory>
    ensures { IfOk result (λ value. view_part value ≡ option_map (spec.outside_own_call name.now) args) }
{
    let Some(args) = args else {
        return Ok(None);
    };
    let name = name.copy(alloc)?;
    let tree = IExpr::OutsideCall(name, args);
    Ok(Some(Meant::new(alloc, tree, StaticType::Outside)?))
}

/// A call after `super.`.
pub fn outside_super_call(
    alloc: Global,
    name: &Text,
    args: Option<List<IExpr>>,
) -> Result<Option<Meant>, OutOfMemory>
    ensures { IfOk result (λ value. view_part value ≡ option_map (spec.outside_super_call name.now) args) }
{
    let Some(args) = args else {
        return Ok(None);
    };
    let name = name.copy(alloc)?;
    let tree = IExpr::OutsideSuperCall(name, args);
    Ok(Some(Meant::new(alloc, tree, StaticType::Outside)?))
}

/// A call on a value.
pub fn outside_call_of(
    alloc: Global,
    name: &Text,
    value: Meant,
    args: Option<List<IExpr>>,
) -> Result<Option<Meant>, OutOfMemory>
    ensures { IfOk result (λ made. view_part made ≡ option_map (spec.outside_call_of name.now (view_meant value)) args) }
{
    match args {
        Some(args) => Ok(Some(outside_called(alloc, name, value, args)?)),
        None => Ok(None),
    }
}

/// A call on a value, with its arguments.
fn outside_called(
    alloc: Global,
    name: &Text,
    value: Meant,
    args: List<IExpr>,
) -> Result<Meant, OutOfMemory>
    ensures { IfOk result (λ made. view_meant made ≡ spec.outside_call_of name.now (view_meant value) args) }
{
    let ty = value.ty.outside_call(alloc, name, args.items().len())?;
    let name = name.copy(alloc)?;
    Meant::new(alloc, IExpr::OutsideCallOn(name, value.tree, args), ty)
}
