//! Fields of `this` and of values (JLS 15.11).
ghost use Rattle.std.specs.Prelude.{◌≡◌, IfOk};
ghost use Rattle.jav_names.specs.seen.Kept.{view_type};
ghost use Rattle.mol_resolve_readings.specs.meant.Kept.{view_meant};
ghost use Rattle.mol_resolve_readings.specs.meant.Made as spec;

use crate::meant::meant::Meant;
use jav_names::SeenType;
use mol_base::{Id, OutOfMemory, Text};
use mol_values_types::IExpr;
use std::alloc::Global;

/// A field of `this`, or a static one, of a type.
pub fn own_field(
    alloc: Global,
    is_static: bool,
    field: Id,
    ty: &SeenType,
) -> Result<Meant, OutOfMemory>
    ensures { IfOk result (λ value. view_meant value ≡ spec.own_field is_static field (view_type ty.now)) }
{
    if is_static {
        Meant::of_type(alloc, IExpr::StaticField(field), ty)
    } else {
        Meant::of_type(alloc, IExpr::Own(field), ty)
    }
}

/// A field of a value, of a type; where the value is `this`, an own one.
pub fn field_of(alloc: Global, field: Id, ty: &SeenType, value: Meant) -> Result<Meant, OutOfMemory>
    ensures { IfOk result (λ made. view_meant made ≡ spec.field_of field (view_type ty.now) (view_meant value)) }
{
    if value.is_this {
        Meant::of_type(alloc, IExpr::Own(field), ty)
    } else {
        Meant::of_type(alloc, IExpr::Field(field, value.tree), ty)
    }
}

/// A field of a value that is nothing of the program.
pub fn outside_field_of(alloc: Global, name: &Text, value: Meant) -> Result<Meant, OutOfMemory>
    ensures { IfOk result (λ made. view_meant made ≡ spec.outside_field_of name.now (view_meant value)) }
{
    let ty = value.ty.outside_field(name);
    let name = name.copy(alloc)?;
    Meant::new(alloc, IExpr::OutsideField(name, value.tree), ty)
}
