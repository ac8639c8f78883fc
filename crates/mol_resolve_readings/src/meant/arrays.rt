//! Arrays and their items (JLS 10, 15.10). What stands over a part without a value has none.
ghost use Rattle.std.specs.Prelude.{◌≡◌, IfOk, option_map};
ghost use Rattle.std.specs.Option.{option_zip};
ghost use Rattle.jav_names.specs.seen.Kept.{view_type};
ghost use Rattle.mol_resolve_readings.specs.meant.Kept.{view_meant, view_part, view_read, view_reading};
ghost use Rattle.mol_resolve_readings.specs.meant.Made as spec;
ghost use Rattle.mol_resolve_rules.specs.ReadTrees as trees;

use crate::meant::meant::Meant;
use crate::meant::read_type::ReadType;
use jav_names::{SeenType, StaticType};
use mol_base::{Boxed, List, OutOfMemory};
use mol_values_types::IExpr;
use std::alloc::Global;

/// A new array: the type before all brackets, the sizes of the first dimensions, and how many pairs of empty brackets follow them.
pub fn new_array(
    alloc: Global,
    item: Option<ReadType>,
    sizes: Option<List<IExpr>>,
    pairs: u32,
) -> Result<Option<Meant>, OutOfMemory>
    ensures { IfOk result (λ value. view_part value ≡ option_map (spec.new_array pairs) (option_zip (view_reading item) sizes)) }
{
    let Some(item) = item else {
        return Ok(None);
    };
    let Some(sizes) = sizes else {
        return Ok(None);
    };
    Ok(Some(array_sized(alloc, item, sizes, pairs)?))
}

/// A new array of items of a type, by its sizes and pairs of empty brackets.
fn array_sized(
    alloc: Global,
    item: ReadType,
    sizes: List<IExpr>,
    pairs: u32,
) -> Result<Meant, OutOfMemory>
    ensures { IfOk result (λ value. view_meant value ≡ spec.new_array pairs (view_read item, sizes)) }
{
    let dimensions = sizes.items().len() + pairs as usize;
    let ty = array_type(alloc, dimensions, item.ty)?;
    Meant::of_type(alloc, IExpr::NewArray(item.tree, sizes, pairs), &ty)
}

/// The type of an array of so many dimensions.
fn array_type(alloc: Global, dimensions: usize, item: SeenType) -> Result<SeenType, OutOfMemory>
    ensures { IfOk result (λ ty. view_type ty ≡ trees.arrays dimensions (view_type item)) }
{
    let mut ty = item;
    for _level in 0..dimensions {
        ty = SeenType::Array(Boxed::new(alloc, ty)?);
    }
    Ok(ty)
}

/// An array with its type and its items (JLS 10.6).
pub fn array_of(
    alloc: Global,
    ty: Option<ReadType>,
    items: Option<List<IExpr>>,
) -> Result<Option<Meant>, OutOfMemory>
    ensures { IfOk result (λ value. view_part value ≡ option_map spec.array_of (option_zip (view_reading ty) items)) }
{
    let Some(ty) = ty else {
        return Ok(None);
    };
    let Some(items) = items else {
        return Ok(None);
    };
    let tree = IExpr::ArrayLit(ty.tree, items);
    Ok(Some(Meant::of_type(alloc, tree, &ty.ty)?))
}

/// Items in braces, without a type.
pub fn braces(alloc: Global, items: Option<List<IExpr>>) -> Result<Option<Meant>, OutOfMemory>
    ensures { IfOk result (λ value. view_part value ≡ option_map spec.braces items) }
{
    let Some(items) = items else {
        return Ok(None);
    };
    let tree = IExpr::Braces(items);
    Ok(Some(Meant::new(alloc, tree, StaticType::Mixed)?))
}

/// An item of an array (JLS 15.10.3).
pub fn item_of(
    alloc: Global,
    array: Meant,
    index: Option<Meant>,
) -> Result<Option<Meant>, OutOfMemory>
    ensures { IfOk result (λ value. view_part value ≡ option_map (spec.item_of (view_meant array)) (view_part index)) }
{
    match index {
        Some(index) => Ok(Some(item_at(alloc, array, index)?)),
        None => Ok(None),
    }
}

/// An item of an array at an index.
fn item_at(alloc: Global, array: Meant, index: Meant) -> Result<Meant, OutOfMemory>
    ensures { IfOk result (λ value. view_meant value ≡ spec.item_of (view_meant array) (view_meant index)) }
{
    let ty = array.ty.item(alloc)?;
    Meant::new(alloc, IExpr::Index(array.tree, index.tree), ty)
}

/// One more value after others.
pub fn one_more(
    values: Option<List<IExpr>>,
    value: Option<Meant>,
) -> Result<Option<List<IExpr>>, OutOfMemory>
    ensures { IfOk result (λ longer. longer ≡ option_map spec.one_more (option_zip values (view_part value))) }
{
    let Some(mut values) = values else {
        return Ok(None);
    };
    let Some(value) = value else {
        return Ok(None);
    };
    values.add(value.into_tree())?;
    Ok(Some(values))
}
