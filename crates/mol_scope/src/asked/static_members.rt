//! What static members read as, after the names of their class (JLS 6.5.6.2, 15.11, 15.12).
ghost use Rattle.std.specs.Prelude.{◌≡◌, ◌≤◌, ◌∷◌, Some, length};
ghost use Rattle.jav_names.specs.DottedNames.{Dotted, Names};
ghost use Rattle.mol_scope.specs.asked.Answers.{answer_of, whole_class};
ghost use Rattle.mol_scope.specs.asked.Places.{IsAt, reader_of};
ghost use Rattle.mol_base.specs.declared.ident.Id.{Id as Identity};
ghost use Rattle.mol_scope.specs.first_names.Readings.{type_read};
ghost use Rattle.mol_resolve_rules.specs.Locals.{Locals};
ghost use Rattle.mol_resolve_rules.specs.ReadTrees.{path_by, path_of, whole_path};
ghost use Rattle.mol_spell_rules.specs.Answers.{answer, field_through_answer, method_through_answer};
ghost use Rattle.mol_spell_rules.specs.Writers.{static_field_asked, static_method_asked};

use crate::asked::answer::Answer;
use crate::asked::place::NamePlace;
use crate::first_names::{FirstType, Leftmost, leftmost};
use jav_scope::Found;
use mol_base::{Id, Text};
use mol_scope_classes::is_static_field;
use mol_scope_members::{field_of, method_of};

impl<'b> NamePlace<'_, 'b> {
    /// What the name of a static field reads as after these names, whatever names follow it. It takes no memory. The time is that of
    /// `leftmost` and of the look-up of a field.
    pub fn static_field(&self, path: &[Text], name: &str) -> Answer<'b>
        requires { 1 ≤ length path.now }
        ensures { (locals : Locals Identity) (names : Dotted) (follow : Names) → IsAt self.now locals → path.now ≡ names.first ∷ names.rest
            → answer_of result ≡ answer (reader_of self.now) locals (static_field_asked names name.now follow) }
    {
        match self.class_spelled(path) {
            Some(class) => self.field_through(&class, name),
            None => Answer::Nothing,
        }
    }

    /// What the name of a static method with so many arguments reads as after these names. It takes no memory. The time is that of
    /// `leftmost` and of the look-up of a method.
    pub fn static_method(&self, path: &[Text], name: &Text, arity: u32) -> Answer<'b>
        requires { 1 ≤ length path.now }
        ensures { (locals : Locals Identity) (names : Dotted) → IsAt self.now locals → path.now ≡ names.first ∷ names.rest
            → answer_of result ≡ answer (reader_of self.now) locals (static_method_asked names name.now arity) }
    {
        match self.class_spelled(path) {
            Some(class) => self.method_through(&class, name, arity),
            None => Answer::Nothing,
        }
    }

    /// The class that these names spell, if they spell one and nothing else, before a dot and whatever names.
    fn class_spelled(&self, path: &[Text]) -> Option<Id>
        requires { 1 ≤ length path.now }
        ensures { (locals : Locals Identity) (names : Dotted) (follow : Names) → IsAt self.now locals → path.now ≡ names.first ∷ names.rest
            → result ≡ whole_class (path_of (reader_of self.now) locals (Some names) follow) }
    {
        match leftmost(&self.variables, self.imports, path) {
            Leftmost::Variable(_) => None,
            Leftmost::Type(first) => spelled_by(&first, path.len()),
        }
    }

    /// A static field through the name of a class.
    fn field_through(&self, class: &Id, name: &str) -> Answer<'b>
        ensures { answer_of result ≡ field_through_answer (reader_of self.now) name.now (whole_path class.now) }
    {
        match field_of(self.variables.members, class, name) {
            Found::Found(field) => {
                if is_static_field(self.table(), &field) {
                    Answer::Field(field)
                } else {
                    Answer::Nothing
                }
            },
            Found::Outside => Answer::Nothing,
            Found::NotFound => Answer::Nothing,
        }
    }

    /// A static method through the name of a class.
    fn method_through(&self, class: &Id, name: &Text, arity: u32) -> Answer<'b>
        ensures { answer_of result ≡ method_through_answer (reader_of self.now) name.now arity (whole_path class.now) }
    {
        match method_of(self.variables.members, class, name, arity) {
            Found::Found(declared) => {
                let method = self.method_at(&declared);
                if self.is_static(&method) {
                    Answer::Method(method)
                } else {
                    Answer::Nothing
                }
            },
            Found::Outside => Answer::Nothing,
            Found::NotFound => Answer::Nothing,
        }
    }
}

/// The class that as many names as these spell.
fn spelled_by(first: &FirstType<'_>, count: usize) -> Option<Id>
    ensures { result ≡ whole_class (path_by count (type_read first.now)) }
{
    match first {
        FirstType::Class(class, spelling) => {
            if *spelling == count {
                Some(*class)
            } else {
                None
            }
        },
        FirstType::Imported(_) => None,
        FirstType::Outside => None,
    }
}
