//! Types of a program by their names.
ghost use Rattle.std.specs.Prelude.{◌≡◌, ◌<◌, ℕ, IfOk, Some, length, slice_get};
ghost use Rattle.jav_scope.specs.declared.source.SourceUnit.{SourceUnit};
ghost use Rattle.jav_tree.specs.declared.types.TypeName.TheVariants as types;
ghost use Rattle.jav_scope.specs.typenames.Readings.{reading_of};
ghost use Rattle.mol_resolve_members.specs.sources.Sources.{file_of, files_of};
ghost use Rattle.mol_resolve_rules.specs.Files.{File};
ghost use Rattle.mol_resolve_rules.specs.ReadFiles.{file_reader};
ghost use Rattle.mol_resolve_rules.specs.ReadTypes.{named_tree, type_tree};
ghost use Rattle.mol_values_types.specs.declared.itype.IType.TheVariants as trees;

use jav_scope::{Scope, TypeReading, type_reading};
use mol_base::{Boxed, OutOfMemory, Text};
use mol_resolve_members::Numbers;
use mol_values_types::IType;
use std::alloc::Global;

/// The type of a name in the file of this number; none where it reads as nothing (JLS 6.5.5).
pub(crate) fn named_tree(
    alloc: Global,
    scope: &Scope<'_>,
    numbers: &Numbers<'_>,
    unit: u32,
    name: &Text,
) -> Result<Option<IType>, OutOfMemory>
    requires numbers { numbers.now ≡ scope.now }
    requires unit { unit < length scope.now }
    ensures { IfOk result (λ tree. (source : SourceUnit) → slice_get scope.now unit ≡ Some source
        → tree ≡ type_tree (file_reader (files_of scope.now) (unit, file_of source)) (types.Named name.now)) }
{
    let reading = type_reading(scope, unit, name);
    tree_of(alloc, numbers, name, reading)
}

/// The type of a name that reads so.
fn tree_of(
    alloc: Global,
    numbers: &Numbers<'_>,
    name: &Text,
    reading: TypeReading<'_>,
) -> Result<Option<IType>, OutOfMemory>
    ensures { IfOk result (λ tree. (file : ℕ × File)
        → tree ≡ named_tree (file_reader (files_of numbers.now) file) (reading_of name.now reading.entry)) }
{
    match reading {
        TypeReading::Class(class) => Ok(Some(IType::Class(numbers.class_id(class)))),
        TypeReading::Imported(full, rest) => imported(alloc, full, rest),
        TypeReading::Written => Ok(Some(IType::Written(name.copy(alloc)?))),
        TypeReading::Nothing => Ok(None),
    }
}

/// An imported type outside, by its full name and the names that follow it.
fn imported(alloc: Global, full: &Text, rest: &str) -> Result<Option<IType>, OutOfMemory>
    ensures { IfOk result (λ tree. tree ≡ Some (trees.Imported full.now rest.now)) }
{
    let full = full.copy(alloc)?;
    let rest = Boxed::new(alloc, Text::from_str(alloc, rest)?)?;
    Ok(Some(IType::Imported(full, rest)))
}
