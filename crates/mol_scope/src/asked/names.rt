//! What names read as that stand alone or before a dot (JLS 6.5.2, 6.5.6.1).
ghost use Rattle.std.specs.Prelude.{◌≡◌, ◌≤◌, ◌∷◌, ◌++◌, Some, length, option_map, slice_get};
ghost use Rattle.jav_names.specs.DottedNames.{Name, Names, joined};
ghost use Rattle.jav_names.specs.Variables.{Variable as Read};
ghost use Rattle.mol_scope.specs.asked.Answers.{answer_of, dotted_of, names_in};
ghost use Rattle.mol_scope.specs.asked.Places.{IsAt, reader_of};
ghost use Rattle.mol_scope.specs.declared.asked.place.NamePlace.{NamePlace as Place};
ghost use Rattle.mol_base.specs.declared.ident.Id.{Id as Identity};
ghost use Rattle.mol_scope.specs.first_names.Readings.{type_read};
ghost use Rattle.mol_spell_rules.specs.references.References.{local_target, outside_target, param_target};
ghost use Rattle.mol_resolve_rules.specs.Locals.{Locals};
ghost use Rattle.mol_spell_rules.specs.Answers.{answer, before_answer, path_answer, variable_answer};
ghost use Rattle.mol_spell_rules.specs.Writers.{name_asked, name_before_asked, path_asked};
ghost use Rattle.mol_scope.specs.variables.Keys.{variable_key};

use crate::asked::answer::Answer;
use crate::asked::dotted_text::DottedText;
use crate::asked::place::NamePlace;
use crate::first_names::{FirstType, Leftmost, leftmost};
use crate::variables::Variable;
use jav_scope::Found;
use mol_base::Text;

impl<'b> NamePlace<'_, 'b> {
    /// What a name reads as that stands alone: a variable, or a field that may come from an outside superclass. It takes no memory, and as
    /// much time as the look-up of a variable.
    pub fn name_alone(&self, name: &'b str) -> Answer<'b>
        ensures { (locals : Locals Identity) → IsAt self.now locals
            → answer_of result ≡ answer (reader_of self.now) locals (name_asked name.now) }
    {
        match self.variables.variable(name) {
            Found::Found(variable) => self.variable(variable),
            Found::Outside => written(name),
            Found::NotFound => Answer::Nothing,
        }
    }

    /// What the first of several names with dots between them reads as, before a dot: a variable, a class, or what is outside. It takes no
    /// memory, and as much time as `leftmost`.
    pub fn name_before(&self, names: &'b [Text]) -> Answer<'b>
        requires { 1 ≤ length names.now }
        ensures { (locals : Locals Identity) (name : Name) (follow : Names) → IsAt self.now locals → names.now ≡ name ∷ follow
            → answer_of result ≡ answer (reader_of self.now) locals (name_before_asked name follow) }
    {
        match leftmost(&self.variables, self.imports, names) {
            Leftmost::Variable(variable) => self.variable(variable),
            Leftmost::Type(first) => type_before(names[0].as_str(), &first),
        }
    }

    /// What the name of a type outside reads as where a value might stand. It is given as a text whose front is the first of its names; and
    /// again as one name after another, before those that follow it. It takes no memory, and as much time as `leftmost`.
    pub fn outside_path(&self, path: DottedText<'b>, names: &[Text]) -> Answer<'b>
        requires { 1 ≤ length names.now }
        ensures { (locals : Locals Identity) (follow : Names) → IsAt self.now locals
            → names.now ≡ (dotted_of path.entry).first ∷ (dotted_of path.entry).rest ++ follow
            → answer_of result ≡ answer (reader_of self.now) locals (path_asked (dotted_of path.entry) follow) }
    {
        match leftmost(&self.variables, self.imports, names) {
            Leftmost::Variable(_) => Answer::Nothing,
            Leftmost::Type(first) => outside(path, &first),
        }
    }

    /// What a name is that is the name of this variable.
    fn variable(&self, variable: Variable) -> Answer<'b>
        ensures { (locals : Locals Identity) (read : Read Identity Identity) → IsAt self.now locals → variable_key read ≡ variable
            → answer_of result ≡ variable_answer (reader_of self.now) locals read }
    {
        match variable {
            Variable::Local(place) => self.local(place),
            Variable::Param(place) => self.param(place),
            Variable::Field(field) => Answer::Field(field),
        }
    }

    /// The local at a place among those in scope.
    fn local(&self, place: usize) -> Answer<'b>
        ensures { answer_of result ≡ option_map (λ number. local_target number) (slice_get self.now.in_scope.now place) }
    {
        match self.in_scope.get(place) {
            Some(number) => Answer::Local(*number),
            None => Answer::Nothing,
        }
    }

    /// The parameter at a place.
    fn param(&self, place: usize) -> Answer<'b>
        ensures { answer_of result ≡ option_map (λ param. param_target param.id) (slice_get self.now.params.now place) }
    {
        match self.params.get(place) {
            Some(param) => Answer::Param(param.id),
            None => Answer::Nothing,
        }
    }
}

/// What a name before a dot is that is no variable.
fn type_before<'b>(name: &'b str, first: &FirstType<'b>) -> Answer<'b>
    ensures { (place : Place) (locals : Locals Identity)
        → answer_of result ≡ before_answer (reader_of place) locals name.now (type_read first.now) }
{
    match first {
        FirstType::Class(class, _) => Answer::Class(*class),
        FirstType::Imported(full) => written(full.as_str()),
        FirstType::Outside => written(name),
    }
}

/// What the name of a type outside reads as whose first name is no variable.
fn outside<'b>(path: DottedText<'b>, first: &FirstType<'b>) -> Answer<'b>
    ensures { (place : Place) → answer_of result ≡ path_answer (reader_of place) (dotted_of path.entry) (type_read first.now) }
{
    match first {
        FirstType::Class(_, _) => Answer::Nothing,
        FirstType::Imported(full) => joined(full.as_str(), path.rest),
        FirstType::Outside => joined(path.front, path.rest),
    }
}

/// What is outside: a name with those that follow it.
fn joined<'b>(front: &'b str, rest: Option<&'b str>) -> Answer<'b>
    ensures { answer_of result ≡ Some (outside_target (joined front.now (names_in rest.entry))) }
{
    Answer::Outside(DottedText { front, rest })
}

/// What is outside, as it is written.
pub(crate) fn written<'b>(text: &'b str) -> Answer<'b>
    ensures { answer_of result ≡ Some (outside_target text.now) }
{
    Answer::Outside(DottedText {
        front: text,
        rest: None,
    })
}
