//! Types as they are written in a source file, as the rules on names look at them.
ghost use Rattle.std.specs.Prelude.{◌≡◌, ◌<◌, IfOk, Some, length, slice_get};
ghost use Rattle.jav_scope.specs.Entries.{classes_in};
ghost use Rattle.jav_scope.specs.declared.source.SourceUnit.{SourceUnit};
ghost use Rattle.jav_names.specs.seen.Kept.{view_type};
ghost use Rattle.jav_scope.specs.typenames.Readings.{reading_of};
ghost use Rattle.jav_names.specs.TypeTexts.{imported_text, type_in, type_of};
ghost use Rattle.jav_names.specs.UnitViews.{header_of};

use crate::Scope;
use crate::typenames::reading::{TypeReading, type_reading};
use jav_names::SeenType;
use jav_tree::TypeName;
use mol_base::{Boxed, OutOfMemory, Text};
use std::alloc::Global;

/// A type as it is written in the file of this number, from 0, as the rules on names look at it (JLS 4, 6.5.5). A name of no type gives the
/// type that is unread. The time is that of `type_reading`, and linear in the length of the type's text. `Err` is want of memory.
pub fn seen_type(
    alloc: Global,
    scope: &Scope<'_>,
    unit: u32,
    ty: &TypeName,
) -> Result<SeenType, OutOfMemory>
    requires { unit < length scope.now }
    ensures { IfOk result (λ seen. (source : SourceUnit) → slice_get scope.now unit ≡ Some source
        → view_type seen ≡ type_in (classes_in scope.now) (header_of (unit, source.unit)) ty.now) }
{
    match ty {
        TypeName::Prim(name) => Ok(SeenType::Primitive(name.copy(alloc)?)),
        TypeName::Named(text) => type_of(alloc, text, type_reading(scope, unit, text)),
        TypeName::ArrayOf(item) => {
            let item = seen_type(alloc, scope, unit, item.get())?;
            Ok(SeenType::Array(Boxed::new(alloc, item)?))
        },
        TypeName::Void => Ok(SeenType::Void),
    }
}

/// The type of a name, by what the name reads as.
fn type_of(alloc: Global, text: &Text, reading: TypeReading<'_>) -> Result<SeenType, OutOfMemory>
    ensures { IfOk result (λ seen. view_type seen ≡ type_of (reading_of text.now reading.entry)) }
{
    match reading {
        TypeReading::Class(class) => Ok(SeenType::Class(class)),
        TypeReading::Imported(full, rest) => Ok(SeenType::Outside(imported_text(
            alloc, full, rest,
        )?)),
        TypeReading::Written => Ok(SeenType::Outside(text.copy(alloc)?)),
        TypeReading::Nothing => Ok(SeenType::Unread),
    }
}

/// The text of an imported type: its full name, and after a dot what follows it.
fn imported_text(alloc: Global, full: &Text, rest: &str) -> Result<Text, OutOfMemory>
    ensures { IfOk result (λ text. text ≡ imported_text full.now rest.now) }
{
    if rest.is_empty() {
        return full.copy(alloc);
    }
    let mut text = String::from_str(alloc, full.as_str())?;
    text.push_str(".")?;
    text.push_str(rest)?;
    Ok(Text::from_string(text))
}
