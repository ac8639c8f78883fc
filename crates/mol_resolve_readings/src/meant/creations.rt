//! Creations of objects (JLS 15.9). Where an argument has no value, the creation has none.
ghost use Rattle.std.specs.Prelude.{◌≡◌, IfOk, option_map};
ghost use Rattle.mol_resolve_readings.specs.meant.Kept.{view_meant, view_part, view_read};
ghost use Rattle.mol_resolve_readings.specs.meant.Made as spec;

use crate::meant::meant::Meant;
use crate::meant::read_type::ReadType;
use jav_names::StaticType;
use mol_base::{Id, List, OutOfMemory};
use mol_values_types::{Argument, IExpr};
use std::alloc::Global;

/// A creation by a constructor of a class, by the number of the class's file and the constructor's identity.
pub fn creation(
    alloc: Global,
    class: u32,
    constructor: Id,
    args: Option<List<Argument>>,
) -> Result<Option<Meant>, OutOfMemory>
    ensures { IfOk result (λ value. view_part value ≡ option_map (spec.creation class constructor) args) }
{
    let Some(args) = args else {
        return Ok(None);
    };
    let tree = IExpr::New(constructor, args);
    Ok(Some(Meant::new(alloc, tree, StaticType::Class(class))?))
}

/// A creation by the default constructor of a class (JLS 8.8.9), by the number of the class's file and its identity.
pub fn default_creation(alloc: Global, class: u32, id: Id) -> Result<Meant, OutOfMemory>
    ensures { IfOk result (λ value. view_meant value ≡ spec.default_creation class id) }
{
    Meant::new(alloc, IExpr::NewDefault(id), StaticType::Class(class))
}

/// A creation of a class that is nothing of the program.
pub fn outside_creation(
    alloc: Global,
    ty: ReadType,
    args: Option<List<IExpr>>,
) -> Result<Option<Meant>, OutOfMemory>
    ensures { IfOk result (λ value. view_part value ≡ option_map (spec.outside_creation (view_read ty)) args) }
{
    let Some(args) = args else {
        return Ok(None);
    };
    let tree = IExpr::NewOutside(ty.tree, args);
    Ok(Some(Meant::new(alloc, tree, StaticType::Outside)?))
}
