//! How many classes stand one above another.
ghost use Rattle.std.specs.Prelude.{◌≡◌, Some, IfOk, IfSome, OnOk};
ghost use Rattle.mol_table_rules.specs.Heights.{upward};
ghost use Rattle.mol_table.specs.Maps.{program_in};
ghost use Rattle.mol_table_rules.specs.Program.{parent_at, class_of_type};
ghost use Rattle.mol_table_numbers.specs.Tops.{IsHeight, AreHeights, IsWay};

use indexmap::IndexMap;
use mol_base::{Id, OutOfMemory};
use mol_table::Maps;
use mol_values_types::{Cell, IType, Slot, Value};
use std::alloc::Global;

/// Classes, each the superclass of the one before, and the height of the next.
#[derive(Drop)]
pub(crate) struct Way {
    pub classes: Vec<Id>,
    pub height: usize,
}

/// The superclass of a class, where that is a class of the program.
fn parent(maps: &Maps, class: &Id) -> Option<Id>
    ensures { result ≡ parent_at (program_in maps.now) class.now }
{
    let cell = Cell {
        id: *class,
        slot: Slot::Super,
    };
    match maps.value(&cell) {
        Some(Value::Super(Some(parent))) => class_of(parent),
        _ => None,
    }
}

/// The superclass of a class, where that is a class of the program and lives.
pub(crate) fn living_parent(maps: &Maps, class: &Id) -> Option<Id>
    ensures { result ≡ upward (program_in maps.now) (Some class.now) }
{
    match parent(maps, class) {
        Some(parent) => {
            if maps.is_living(&parent) {
                Some(parent)
            } else {
                None
            }
        },
        None => None,
    }
}

/// The classes from one on upwards whose heights are not known yet, and the height of the next; none
/// where following superclasses does not come to an end.
fn way_up(
    alloc: Global,
    maps: &Maps,
    heights: &IndexMap<Id, usize>,
    class: Id,
) -> Result<Option<Way>, OutOfMemory>
    requires { AreHeights maps.now heights.now.entries }
    ensures { IfOk result (λ found. IfSome found (IsWay maps.now (Some class))) }
{
    let mut classes = Vec::new(alloc);
    let mut at = Some(class);
    for _ in 0..maps.known.len() + 1 {
        let Some(next) = at else {
            return Ok(Some(Way { classes, height: 0 }));
        };
        if let Some(height) = heights.get(&next) {
            return Ok(Some(Way {
                classes,
                height: *height,
            }));
        }
        classes.push(next)?;
        at = living_parent(maps, &next);
    }
    Ok(None)
}

/// How many classes there are from one on upwards; none where following superclasses does not come to
/// an end. What is found is kept, so that each class is gone through once.
pub(crate) fn height(
    alloc: Global,
    maps: &Maps,
    heights: &mut IndexMap<Id, usize>,
    class: Id,
) -> Result<Option<usize>, OutOfMemory>
    requires { AreHeights maps.now heights.old.entries }
    ensures height { IfOk result (λ found. IfSome found (IsHeight maps.now class)) }
    ensures known { OnOk result (AreHeights maps.now heights.new.entries) }
{
    // No class is higher than there are identities and one.
    let most = maps.known.len() + 1;
    let Some(way) = way_up(alloc, maps, heights, class)? else {
        return Ok(None);
    };
    let room = most - way.height;
    let length = way.classes.len();
    if length > room {
        return Ok(None);
    }
    let total = way.height + length;
    let mut height = total;
    for class in way.classes.iter() {
        let _ = heights.insert(*class, height)?;
        height -= 1;
    }
    Ok(Some(total))
}

/// The class of the program that a type is.
fn class_of(ty: &IType) -> Option<Id>
    ensures { result ≡ class_of_type ty.now }
{
    match ty {
        IType::Boolean => None,
        IType::Byte => None,
        IType::Short => None,
        IType::Char => None,
        IType::Int => None,
        IType::Long => None,
        IType::Void => None,
        IType::Class(id) => Some(*id),
        IType::Imported(_, _) => None,
        IType::Written(_) => None,
        IType::Array(_) => None,
    }
}
