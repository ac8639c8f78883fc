//! Operators, casts and choices (JLS 15.14 to 15.26). What stands over an operand without a value has none.
ghost use Rattle.std.specs.Prelude.{◌≡◌, IfOk, option_map};
ghost use Rattle.std.specs.Option.{option_zip};
ghost use Rattle.jav_names.specs.seen.Kept.{view_value};
ghost use Rattle.mol_resolve_readings.specs.meant.Kept.{view_meant, view_part, view_read, view_reading};
ghost use Rattle.mol_resolve_readings.specs.meant.Made as spec;
ghost use Rattle.mol_resolve_rules.specs.ReadTrees as trees;

use crate::meant::meant::Meant;
use crate::meant::read_type::ReadType;
use jav_names::StaticType;
use mol_base::{OutOfMemory, Text, is_step};
use mol_values_types::IExpr;
use std::alloc::Global;

/// An operator before an operand: `++` and `--` have the type of what they step, the others are primitive (JLS 15.15).
pub fn unary(alloc: Global, op: &Text, operand: Option<Meant>) -> Result<Option<Meant>, OutOfMemory>
    ensures { IfOk result (λ value. view_part value ≡ option_map (spec.unary op.now) (view_part operand)) }
{
    match operand {
        Some(operand) => Ok(Some(unary_of(alloc, op, operand)?)),
        None => Ok(None),
    }
}

/// An operator before a value.
fn unary_of(alloc: Global, op: &Text, operand: Meant) -> Result<Meant, OutOfMemory>
    ensures { IfOk result (λ value. view_meant value ≡ spec.unary op.now (view_meant operand)) }
{
    let word = op.copy(alloc)?;
    Meant::new(
        alloc,
        IExpr::Unary(word, operand.tree),
        unary_type(op, operand.ty),
    )
}

/// The static type of what has an operator before it. It takes no memory.
fn unary_type(op: &Text, ty: StaticType) -> StaticType
    ensures { view_value result ≡ trees.unary_type op.now (view_value ty) }
{
    if is_step(op.bytes()) {
        ty
    } else {
        StaticType::Primitive
    }
}

/// An operator after an operand (JLS 15.14).
pub fn post(alloc: Global, op: &Text, operand: Option<Meant>) -> Result<Option<Meant>, OutOfMemory>
    ensures { IfOk result (λ value. view_part value ≡ option_map (spec.post op.now) (view_part operand)) }
{
    match operand {
        Some(operand) => Ok(Some(post_of(alloc, op, operand)?)),
        None => Ok(None),
    }
}

/// An operator after a value.
fn post_of(alloc: Global, op: &Text, operand: Meant) -> Result<Meant, OutOfMemory>
    ensures { IfOk result (λ value. view_meant value ≡ spec.post op.now (view_meant operand)) }
{
    let op = op.copy(alloc)?;
    Meant::new(alloc, IExpr::Post(op, operand.tree), operand.ty)
}

/// An operator between two operands: `+` may join strings, which are outside, the others are primitive (JLS 15.18.1).
pub fn binary(
    alloc: Global,
    op: &Text,
    left: Option<Meant>,
    right: Option<Meant>,
) -> Result<Option<Meant>, OutOfMemory>
    ensures { IfOk result (λ value. view_part value ≡ option_map (spec.binary op.now) (option_zip (view_part left) (view_part right))) }
{
    let Some(left) = left else {
        return Ok(None);
    };
    let Some(right) = right else {
        return Ok(None);
    };
    Ok(Some(binary_of(alloc, op, left, right)?))
}

/// An operator between two values.
fn binary_of(alloc: Global, op: &Text, left: Meant, right: Meant) -> Result<Meant, OutOfMemory>
    ensures { IfOk result (λ value. view_meant value ≡ spec.binary op.now (view_meant left, view_meant right)) }
{
    let word = op.copy(alloc)?;
    Meant::new(
        alloc,
        IExpr::Binary(word, left.tree, right.tree),
        binary_type(op),
    )
}

/// The static type of what has an operator between two operands. It takes no memory.
fn binary_type(op: &Text) -> StaticType
    ensures { view_value result ≡ trees.binary_type op.now }
{
    if op.bytes() == b"+".as_slice() {
        StaticType::Outside
    } else {
        StaticType::Primitive
    }
}

/// An assignment, by its operator (JLS 15.26).
pub fn assignment(
    alloc: Global,
    op: &Text,
    left: Option<Meant>,
    right: Option<Meant>,
) -> Result<Option<Meant>, OutOfMemory>
    ensures { IfOk result (λ value.
        view_part value ≡ option_map (spec.assignment op.now) (option_zip (view_part left) (view_part right))) }
{
    let Some(left) = left else {
        return Ok(None);
    };
    let Some(right) = right else {
        return Ok(None);
    };
    Ok(Some(assignment_of(alloc, op, left, right)?))
}

/// An assignment of a value.
fn assignment_of(alloc: Global, op: &Text, left: Meant, right: Meant) -> Result<Meant, OutOfMemory>
    ensures { IfOk result (λ value. view_meant value ≡ spec.assignment op.now (view_meant left, view_meant right)) }
{
    let op = op.copy(alloc)?;
    Meant::new(alloc, IExpr::Assign(op, left.tree, right.tree), left.ty)
}

/// A cast to a type (JLS 15.16).
pub fn cast(
    alloc: Global,
    ty: Option<ReadType>,
    operand: Option<Meant>,
) -> Result<Option<Meant>, OutOfMemory>
    ensures { IfOk result (λ value. view_part value ≡ option_map spec.cast (option_zip (view_reading ty) (view_part operand))) }
{
    let Some(ty) = ty else {
        return Ok(None);
    };
    let Some(operand) = operand else {
        return Ok(None);
    };
    Ok(Some(cast_of(alloc, ty, operand)?))
}

/// A cast of a value to a type.
fn cast_of(alloc: Global, ty: ReadType, operand: Meant) -> Result<Meant, OutOfMemory>
    ensures { IfOk result (λ value. view_meant value ≡ spec.cast (view_read ty, view_meant operand)) }
{
    Meant::of_type(alloc, IExpr::Cast(ty.tree, operand.tree), &ty.ty)
}

/// A test of whether a value is of a type (JLS 15.20.2).
pub fn instance_of(
    alloc: Global,
    operand: Option<Meant>,
    ty: Option<ReadType>,
) -> Result<Option<Meant>, OutOfMemory>
    ensures { IfOk result (λ value. view_part value ≡ option_map spec.instance_of (option_zip (view_part operand) (view_reading ty))) }
{
    let Some(operand) = operand else {
        return Ok(None);
    };
    let Some(ty) = ty else {
        return Ok(None);
    };
    Ok(Some(instance_at(alloc, operand, ty)?))
}

/// A test of whether a value is of a type.
fn instance_at(alloc: Global, operand: Meant, ty: ReadType) -> Result<Meant, OutOfMemory>
    ensures { IfOk result (λ value. view_meant value ≡ spec.instance_of (view_meant operand, view_read ty)) }
{
    let tree = IExpr::InstanceOf(operand.tree, ty.tree);
    Meant::new(alloc, tree, StaticType::Primitive)
}

/// A choice `?:` between two values, with the static type that these have in common (JLS 15.25).
pub fn choice(
    alloc: Global,
    common: StaticType,
    test: Option<Meant>,
    first: Option<Meant>,
    second: Option<Meant>,
) -> Result<Option<Meant>, OutOfMemory>
    ensures { IfOk result (λ value. view_part value ≡ option_map (spec.choice (view_value common))
        (option_zip (view_part test) (option_zip (view_part first) (view_part second)))) }
{
    let Some(test) = test else {
        return Ok(None);
    };
    let Some(first) = first else {
        return Ok(None);
    };
    let Some(second) = second else {
        return Ok(None);
    };
    let tree = IExpr::Cond(test.tree, first.tree, second.tree);
    Ok(Some(Meant::new(alloc, tree, common)?))
}
