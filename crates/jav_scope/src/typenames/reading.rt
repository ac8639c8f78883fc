//! What the names of types read as.
ghost use Rattle.std.specs.Prelude.{◌≡◌, ◌<◌, Some, length, slice_get};
ghost use Rattle.jav_scope.specs.Answers.{type_answered};
ghost use Rattle.jav_scope.specs.declared.found.Found.TheVariants as answer;
ghost use Rattle.jav_scope.specs.declared.source.SourceUnit.{SourceUnit};
ghost use Rattle.jav_scope.specs.typenames.Readings.{IsCut, reading_of, type_read};

use crate::{Found, Scope};
use mol_base::Text;

/// What the name of a type reads as.
#[derive(Clone, Copy)]
pub enum TypeReading<'a> {
    /// A class of the sources, by the number of its file.
    Class(u32),
    /// An outside type that is imported: its full name, and the names that follow, with dots between them.
    Imported(&'a Text, &'a str),
    /// An outside type as it is written.
    Written,
    /// There is no such type.
    Nothing,
}

/// What the name of a type, simple or with dots, reads as in the file of this number, from 0 (JLS 6.5.5). It takes no memory. The time is
/// linear in the length of the name and logarithmic in the numbers of classes and imports.
pub fn type_reading<'a: 'b, 'b>(scope: &Scope<'a>, unit: u32, text: &'b Text) -> TypeReading<'b>
    requires { unit < length scope.now }
    ensures { (source : SourceUnit) → slice_get scope.now unit ≡ Some source
        → reading_of text.now result ≡ type_read scope.now unit source text.now }
{
    match scope.type_named(unit, text) {
        Found::Found(class) => TypeReading::Class(class),
        Found::Outside => outside_reading(scope, unit, text),
        Found::NotFound => TypeReading::Nothing,
    }
}

/// How the name of an outside type reads: by an import of its first name, or as it is written.
fn outside_reading<'a: 'b, 'b>(scope: &Scope<'a>, unit: u32, text: &'b Text) -> TypeReading<'b>
    requires unit { unit < length scope.now }
    requires outside { (source : SourceUnit) → slice_get scope.now unit ≡ Some source
        → type_answered (type_read scope.now unit source text.now) ≡ answer.Outside }
    ensures { (source : SourceUnit) → slice_get scope.now unit ≡ Some source
        → reading_of text.now result ≡ type_read scope.now unit source text.now }
{
    let (first, rest) = first_name(text.as_str());
    match scope.import_of(unit, first) {
        Some(full) => TypeReading::Imported(full, rest),
        None => TypeReading::Written,
    }
}

/// The first name of a text, and what follows the dot after it.
fn first_name(text: &str) -> (&str, &str)
    ensures { IsCut text.now result.0.now result.1.now }
{
    match text.split_once('.') {
        Some((first, rest)) => (first, rest),
        None => (text, ""),
    }
}
