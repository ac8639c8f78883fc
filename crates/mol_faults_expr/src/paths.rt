//! How names read that are to spell a class or something outside, and static members after the names of a class. `Err` comes where a local
//! has no number of 32 bits.
ghost use Rattle.std.specs.Prelude.{◌≡◌, ◌≤◌, ◌<◌, ◌∷◌, ◌++◌, IfOk, None, length, suc};
ghost use Rattle.jav_names.specs.DottedNames.{Dotted, Name, Names as NameList};
ghost use Rattle.mol_scope.specs.asked.Answers.{dotted_of, target_of};
ghost use Rattle.mol_base.specs.declared.ident.Id.{Id as Identity};
ghost use Rattle.mol_faults_expr.specs.Readings.{kept_reading, reads_as};
ghost use Rattle.mol_faults_names.specs.Kept.{locals_at, reader_at, IsPlace};
ghost use Rattle.mol_resolve_rules.specs.Locals.{Locals};
ghost use Rattle.mol_spell_rules.specs.SpelledExpressions.{asks_outside};
ghost use Rattle.mol_spell_rules.specs.Writers.{Writer, path_asked, static_field_asked, static_method_asked};

use crate::reading::{Reading, met_by};
use crate::reads::name_reads;
use mol_base::{OutOfMemory, Text};
use mol_faults_names::InsteadPlace;
use mol_scope::{DottedText, Target};

/// The names of a type outside before a dot: they are given as a text whose front is the first of them; and again as the first so many of
/// these names, before those that follow.
pub(crate) fn path_reads<'b>(
    place: &InsteadPlace<'_, '_, 'b>,
    target: &Target<'_>,
    path: DottedText<'b>,
    names: &'b [Text],
    count: usize,
) -> Result<Reading, OutOfMemory>
    requires at { IsPlace place.now }
    requires some { 1 ≤ count }
    requires within { count ≤ length names.now }
    ensures { IfOk result (λ read. (follow : NameList) → names.now ≡ (dotted_of path.entry).first ∷ (dotted_of path.entry).rest ++ follow
        → count ≡ suc (length (dotted_of path.entry).rest)
        → kept_reading read ≡ reads_as (reader_at place.now) (locals_at place.now) (target_of target.now)
        (path_asked (dotted_of path.entry) follow)) }
{
    let answer = place.names.outside_path(path, names);
    if answer.is(target) {
        return Ok(Reading::AsNamed);
    }
    match place.path(names, count) {
        Ok(instead) => Ok(Reading::Instead(met_by(&instead))),
        Err(OutOfMemory) => Err(OutOfMemory),
    }
}

/// The names of a type outside that stand alone, given in both ways.
pub(crate) fn outside_reads<'b>(
    place: &InsteadPlace<'_, '_, 'b>,
    target: &Target<'_>,
    path: DottedText<'b>,
    names: &'b [Text],
) -> Result<Reading, OutOfMemory>
    requires at { IsPlace place.now }
    requires names { names.now ≡ (dotted_of path).first ∷ (dotted_of path).rest }
    ensures { IfOk result (λ read. (writer : Writer) (around : Locals Identity) → kept_reading read
        ≡ reads_as (reader_at place.now) (locals_at place.now) (target_of target.now)
        (asks_outside writer around (dotted_of path.entry) None)) }
{
    let DottedText { front, rest } = path;
    match rest {
        Some(rest) => {
            let path = DottedText {
                front,
                rest: Some(rest),
            };
            path_reads(place, target, path, names, names.len())
        },
        None => Ok(name_reads(place.names, target, front)),
    }
}

/// A static field after the first so many of these names, which are those of its class: the name at this place among them, before the
/// others.
pub(crate) fn static_field_reads<'b>(
    place: &InsteadPlace<'_, '_, 'b>,
    target: &Target<'_>,
    names: &'b [Text],
    count: usize,
) -> Result<Reading, OutOfMemory>
    requires at { IsPlace place.now }
    requires some { 1 ≤ count }
    requires within { count < length names.now }
    ensures { IfOk result (λ read. (path : Dotted) (name : Name) (follow : NameList)
        → names.now ≡ path.first ∷ (path.rest ++ name ∷ follow) → count ≡ suc (length path.rest)
        → kept_reading read ≡ reads_as (reader_at place.now) (locals_at place.now) (target_of target.now)
        (static_field_asked path name follow)) }
{
    let answer = place
        .names
        .static_field(&names[..count], names[count].as_str());
    if answer.is(target) {
        return Ok(Reading::AsNamed);
    }
    match place.static_field(names, count) {
        Ok(instead) => Ok(Reading::Instead(met_by(&instead))),
        Err(OutOfMemory) => Err(OutOfMemory),
    }
}

/// A static method with so many arguments after these names, which are those of its class.
pub(crate) fn static_method_reads<'b>(
    place: &InsteadPlace<'_, '_, 'b>,
    target: &Target<'_>,
    path: &'b [Text],
    name: &'b Text,
    arity: u32,
) -> Result<Reading, OutOfMemory>
    requires at { IsPlace place.now }
    requires some { 1 ≤ length path.now }
    ensures { IfOk result (λ read. (names : Dotted) → path.now ≡ names.first ∷ names.rest
        → kept_reading read ≡ reads_as (reader_at place.now) (locals_at place.now) (target_of target.now)
        (static_method_asked names name.now arity)) }
{
    let answer = place.names.static_method(path, name, arity);
    if answer.is(target) {
        return Ok(Reading::AsNamed);
    }
    match place.static_method(path, name, arity) {
        Ok(instead) => Ok(Reading::Instead(met_by(&instead))),
        Err(OutOfMemory) => Err(OutOfMemory),
    }
}
