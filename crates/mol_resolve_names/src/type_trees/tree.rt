//! Types of a program by how they are written.
ghost use Rattle.std.specs.Prelude.{◌≡◌, ◌<◌, IfOk, Some, length, option_map, slice_get};
ghost use Rattle.jav_scope.specs.declared.source.SourceUnit.{SourceUnit};
ghost use Rattle.mol_resolve_members.specs.sources.Sources.{file_of, files_of};
ghost use Rattle.mol_resolve_rules.specs.ReadFiles.{file_reader};
ghost use Rattle.mol_resolve_rules.specs.ReadTypes.{primitive_tree, type_tree};
ghost use Rattle.mol_values_types.specs.declared.itype.IType.TheVariants as types;

use crate::type_trees::named::named_tree;
use jav_scope::Scope;
use jav_tree::TypeName;
use mol_base::{Boxed, OutOfMemory, Text};
use mol_resolve_members::Numbers;
use mol_values_types::IType;
use std::alloc::Global;

/// A type in the file of this number as a type of a program; none where its name reads as nothing.
pub(crate) fn type_tree(
    alloc: Global,
    scope: &Scope<'_>,
    numbers: &Numbers<'_>,
    unit: u32,
    ty: &TypeName,
) -> Result<Option<IType>, OutOfMemory>
    requires numbers { numbers.now ≡ scope.now }
    requires unit { unit < length scope.now }
    ensures { IfOk result (λ tree. (source : SourceUnit) → slice_get scope.now unit ≡ Some source
        → tree ≡ type_tree (file_reader (files_of scope.now) (unit, file_of source)) ty.now) }
{
    match ty {
        TypeName::Prim(name) => Ok(primitive_tree(name)),
        TypeName::Named(name) => named_tree(alloc, scope, numbers, unit, name),
        TypeName::ArrayOf(item) => {
            let item = type_tree(alloc, scope, numbers, unit, item.get())?;
            array_of(alloc, item)
        },
        TypeName::Void => Ok(Some(IType::Void)),
    }
}

/// An array of items of a type, if that is one.
fn array_of(alloc: Global, item: Option<IType>) -> Result<Option<IType>, OutOfMemory>
    ensures { IfOk result (λ tree. tree ≡ option_map (λ item. types.Array item) item) }
{
    match item {
        Some(item) => Ok(Some(IType::Array(Boxed::new(alloc, item)?))),
        None => Ok(None),
    }
}

/// A primitive type by its name (JLS 4.2), but for `float` and `double`. It takes no memory.
fn primitive_tree(name: &Text) -> Option<IType>
    ensures { result ≡ primitive_tree name.now }
{
    match name.as_str() {
        "boolean" => Some(IType::Boolean),
        "byte" => Some(IType::Byte),
        "short" => Some(IType::Short),
        "char" => Some(IType::Char),
        "int" => Some(IType::Int),
        "long" => Some(IType::Long),
        _ => None,
    }
}
