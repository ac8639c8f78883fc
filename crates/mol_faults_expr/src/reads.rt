//! How names read, by what each of them asks: as what they are the names of, or as what instead. No call takes memory, and each takes as
//! much time as the call of the place that it makes.
ghost use Rattle.std.specs.Prelude.{◌≡◌, ◌≤◌, ◌∷◌, Some, length};
ghost use Rattle.jav_names.specs.DottedNames.{Name, Names as NameList};
ghost use Rattle.mol_scope.specs.asked.Answers.{target_of, text_of};
ghost use Rattle.mol_scope.specs.asked.Places.{IsAt, reader_of};
ghost use Rattle.mol_base.specs.declared.ident.Id.{Id as Identity};
ghost use Rattle.mol_faults_expr.specs.Readings.{kept_reading, reading, reads_as};
ghost use Rattle.mol_spell_rules.specs.references.References.{outside_target};
ghost use Rattle.mol_resolve_rules.specs.Locals.{Locals};
ghost use Rattle.mol_spell_rules.specs.Writers.{call_asked, constructor_asked, field_asked, index_asked, method_asked, name_asked, name_before_asked, super_constructor_asked, super_method_asked, type_asked};
ghost use Rattle.mol_scope.specs.types.Kept.{view_value};

use crate::reading::Reading;
use mol_base::Text;
use mol_scope::{Answer, DottedText, NamePlace, StaticType, Target};

/// The name of a type.
pub(crate) fn type_reads<'b>(
    place: &NamePlace<'_, 'b>,
    target: &Target<'_>,
    text: &'b str,
) -> Reading
    ensures { (locals : Locals Identity)
        → kept_reading result ≡ reads_as (reader_of place.now) locals (target_of target.now) (type_asked text.now) }
{
    match place.type_named(text) {
        Answer::Outside(text) => outside_reading(text, target),
        read => Reading::of(&read, target),
    }
}

/// The name of a type after `new`, with so many arguments.
pub(crate) fn constructor_reads<'b>(
    place: &NamePlace<'_, 'b>,
    target: &Target<'_>,
    text: &'b str,
    arity: u32,
) -> Reading
    ensures { (locals : Locals Identity)
        → kept_reading result ≡ reads_as (reader_of place.now) locals (target_of target.now) (constructor_asked text.now arity) }
{
    match place.constructor(text, arity) {
        Answer::Outside(text) => outside_reading(text, target),
        read => Reading::of(&read, target),
    }
}

/// A name that stands alone.
pub(crate) fn name_reads<'b>(
    place: &NamePlace<'_, 'b>,
    target: &Target<'_>,
    name: &'b str,
) -> Reading
    ensures { (locals : Locals Identity) → IsAt place.now locals
        → kept_reading result ≡ reads_as (reader_of place.now) locals (target_of target.now) (name_asked name.now) }
{
    match place.name_alone(name) {
        Answer::Outside(text) => outside_reading(text, target),
        read => Reading::of(&read, target),
    }
}

/// The first of several names with dots between them.
pub(crate) fn name_before_reads<'b>(
    place: &NamePlace<'_, 'b>,
    target: &Target<'_>,
    names: &'b [Text],
) -> Reading
    requires { 1 ≤ length names.now }
    ensures { (locals : Locals Identity) (name : Name) (follow : NameList) → IsAt place.now locals → names.now ≡ name ∷ follow
        → kept_reading result ≡ reads_as (reader_of place.now) locals (target_of target.now) (name_before_asked name follow) }
{
    match place.name_before(names) {
        Answer::Outside(text) => outside_reading(text, target),
        read => Reading::of(&read, target),
    }
}

/// The name of a field of a value of this type.
pub(crate) fn field_reads<'b>(
    place: &NamePlace<'_, 'b>,
    target: &Target<'_>,
    ty: &StaticType<'_>,
    name: &'b str,
) -> Reading
    ensures { (locals : Locals Identity)
        → kept_reading result ≡ reads_as (reader_of place.now) locals (target_of target.now) (field_asked (view_value ty.now) name.now) }
{
    match place.field_on(ty, name) {
        Answer::Outside(text) => outside_reading(text, target),
        read => Reading::of(&read, target),
    }
}

/// The name of a method of a value of this type, with so many arguments.
pub(crate) fn method_reads<'b>(
    place: &NamePlace<'_, 'b>,
    target: &Target<'_>,
    ty: &StaticType<'_>,
    name: &'b Text,
    arity: u32,
) -> Reading
    ensures { (locals : Locals Identity) → kept_reading result
        ≡ reads_as (reader_of place.now) locals (target_of target.now) (method_asked (view_value ty.now) name.now arity) }
{
    match place.method_on(ty, name, arity) {
        Answer::Outside(text) => outside_reading(text, target),
        read => Reading::of(&read, target),
    }
}

/// The name of a method without anything before it, with so many arguments.
pub(crate) fn call_reads<'b>(
    place: &NamePlace<'_, 'b>,
    target: &Target<'_>,
    name: &'b Text,
    arity: u32,
) -> Reading
    ensures { (locals : Locals Identity)
        → kept_reading result ≡ reads_as (reader_of place.now) locals (target_of target.now) (call_asked name.now arity) }
{
    match place.call(name, arity) {
        Answer::Outside(text) => outside_reading(text, target),
        read => Reading::of(&read, target),
    }
}

/// The name of a method after `super.`, with so many arguments.
pub(crate) fn super_method_reads<'b>(
    place: &NamePlace<'_, 'b>,
    target: &Target<'_>,
    name: &'b Text,
    arity: u32,
) -> Reading
    ensures { (locals : Locals Identity)
        → kept_reading result ≡ reads_as (reader_of place.now) locals (target_of target.now) (super_method_asked name.now arity) }
{
    match place.super_method(name, arity) {
        Answer::Outside(text) => outside_reading(text, target),
        read => Reading::of(&read, target),
    }
}

/// `super(..)`, with so many arguments.
pub(crate) fn super_reads(place: &NamePlace<'_, '_>, target: &Target<'_>, arity: u32) -> Reading
    ensures { (locals : Locals Identity)
        → kept_reading result ≡ reads_as (reader_of place.now) locals (target_of target.now) (super_constructor_asked arity) }
{
    match place.super_constructor(arity) {
        Answer::Outside(text) => outside_reading(text, target),
        read => Reading::of(&read, target),
    }
}

/// The brackets after a value of this type.
pub(crate) fn index_reads(
    place: &NamePlace<'_, '_>,
    target: &Target<'_>,
    ty: &StaticType<'_>,
) -> Reading
    ensures { (locals : Locals Identity)
        → kept_reading result ≡ reads_as (reader_of place.now) locals (target_of target.now) (index_asked (view_value ty.now)) }
{
    match place.index_on(ty) {
        Answer::Outside(text) => outside_reading(text, target),
        read => Reading::of(&read, target),
    }
}

/// How a name of this target reads that reads as something outside of this text.
fn outside_reading(text: DottedText<'_>, target: &Target<'_>) -> Reading
    ensures { let read = Some (outside_target (text_of text.entry)) in kept_reading result ≡ reading (target_of target.now) read read }
{
    Reading::of(&Answer::Outside(text), target)
}
