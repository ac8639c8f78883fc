//! What the classes of source files extend.
ghost use Rattle.std.specs.Prelude.{◌≡◌, ◌<◌, IfOk, Some, map, option_map, length, slice_get};
ghost use Rattle.jav_names.specs.TypeTexts.{type_in};
ghost use Rattle.jav_names.specs.UnitViews.{numbered, header_of, superclass_of};
ghost use Rattle.jav_scope.specs.Answers.{superclass_answered};
ghost use Rattle.jav_scope.specs.Entries.{units_of, classes_in};
ghost use Rattle.jav_scope.specs.declared.source.SourceUnit.{SourceUnit};

use crate::found::Found;
use crate::source::SourceUnit;
use crate::type_names::TypeNames;
use jav_tree::TypeName;
use mol_base::{OutOfMemory, number_of};
use std::alloc::Global;

/// What each class extends: a class, an outside type or nothing that can be looked into.
pub(crate) fn superclasses(
    alloc: Global,
    names: &TypeNames<'_>,
    sources: &[SourceUnit],
) -> Result<Vec<Found<u32>>, OutOfMemory>
    requires { names.now ≡ sources.now }
    ensures { IfOk result (λ all. all.items
        ≡ map (λ unit. superclass_answered (superclass_of (classes_in sources.now) unit)) (numbered (units_of sources.now))) }
{
    let mut all = Vec::new(alloc);
    for (place, source) in sources.iter().enumerate() {
        let number = number_of(place)?;
        let found = superclass(names, number, &source.unit.class.parent);
        all.push(found)?;
    }
    Ok(all)
}

/// What a class extends, by what stands after `extends` in the file of this number.
fn superclass(names: &TypeNames<'_>, unit: u32, parent: &Option<TypeName>) -> Found<u32>
    requires { unit < length names.now }
    ensures { (source : SourceUnit) → slice_get names.now unit ≡ Some source
        → result ≡ superclass_answered (option_map (type_in (classes_in names.now) (header_of (unit, source.unit))) parent.now) }
{
    match parent {
        Some(ty) => extended(names, unit, ty),
        None => Found::NotFound,
    }
}

/// What a class extends that extends this type.
fn extended(names: &TypeNames<'_>, unit: u32, ty: &TypeName) -> Found<u32>
    requires { unit < length names.now }
    ensures { (source : SourceUnit) → slice_get names.now unit ≡ Some source
        → result ≡ superclass_answered (Some (type_in (classes_in names.now) (header_of (unit, source.unit)) ty.now)) }
{
    match ty {
        TypeName::Named(name) => names.type_named(unit, name),
        TypeName::Prim(_) => Found::NotFound,
        TypeName::ArrayOf(_) => Found::NotFound,
        TypeName::Void => Found::NotFound,
    }
}
