//! What members of values read as, by the static types of the values, and the brackets of indexes (JLS 15.10.3, 15.11, 15.12).
ghost use Rattle.std.specs.Prelude.{◌≡◌, None, Some, if◌then◌else◌};
ghost use Rattle.jav_names.specs.LookUps.{field_from, method_from, on_instance};
ghost use Rattle.jav_names.specs.OnValues.{is_static_kind};
ghost use Rattle.mol_scope.specs.asked.Answers.{answer_of};
ghost use Rattle.mol_scope.specs.asked.Places.{reader_of};
ghost use Rattle.mol_base.specs.declared.ident.Id.{Id as Identity};
ghost use Rattle.mol_spell_rules.specs.references.References.{outside_target};
ghost use Rattle.mol_resolve_rules.specs.Locals.{Locals};
ghost use Rattle.mol_spell_rules.specs.Answers.{answer, field_of, method_of, on_value_answer};
ghost use Rattle.mol_spell_rules.specs.Writers.{field_asked, index_asked, method_asked};
ghost use Rattle.mol_scope.specs.types.Kept.{view_value};

use crate::asked::answer::Answer;
use crate::asked::names::written;
use crate::asked::place::NamePlace;
use crate::types::StaticType;
use jav_scope::{Found, is_object_method};
use mol_base::{Id, Text};
use mol_scope_classes::is_static_field;
use mol_scope_members::{field_of, method_of};

impl<'b> NamePlace<'_, 'b> {
    /// What the name of a field of a value of this type reads as; `length` of an array is outside (JLS 10.7). It takes no memory, and as
    /// much time as the look-up of a field.
    pub fn field_on(&self, ty: &StaticType<'_>, name: &'b str) -> Answer<'b>
        ensures { (locals : Locals Identity)
            → answer_of result ≡ answer (reader_of self.now) locals (field_asked (view_value ty.now) name.now) }
    {
        match ty {
            StaticType::Class(class) => self.instance_field(class, name),
            StaticType::Outside => written(name),
            StaticType::Array(_, _) => written_if(name == "length", name),
            _ => Answer::Nothing,
        }
    }

    /// What the name of a method of a value of this type reads as, with so many arguments; arrays have the methods of `Object` (JLS 10.7),
    /// which are outside. It takes no memory, and as much time as the look-up of a method.
    pub fn method_on(&self, ty: &StaticType<'_>, name: &'b Text, arity: u32) -> Answer<'b>
        ensures { (locals : Locals Identity)
            → answer_of result ≡ answer (reader_of self.now) locals (method_asked (view_value ty.now) name.now arity) }
    {
        match ty {
            StaticType::Class(class) => self.instance_method(class, name, arity),
            StaticType::Outside => written(name.as_str()),
            StaticType::Array(_, _) => written_if(is_object_method(name, arity), name.as_str()),
            _ => Answer::Nothing,
        }
    }

    /// What the brackets after a value of this type read as. It takes no memory.
    pub fn index_on(&self, ty: &StaticType<'_>) -> Answer<'b>
        ensures { (locals : Locals Identity) → answer_of result ≡ answer (reader_of self.now) locals (index_asked (view_value ty.now)) }
    {
        match ty {
            StaticType::Array(_, _) => written("[]"),
            StaticType::Outside => written("[]"),
            _ => Answer::Nothing,
        }
    }

    /// A field of an instance of a class.
    fn instance_field(&self, class: &Id, name: &'b str) -> Answer<'b>
        ensures { let reader = reader_of self.now in answer_of result ≡ on_value_answer reader name.now (field_of reader)
            (on_instance (λ field. field.is_static) (field_from reader.view class.now name.now)) }
    {
        match field_of(self.variables.members, class, name) {
            Found::Found(field) => {
                if is_static_field(self.table(), &field) {
                    Answer::Nothing
                } else {
                    Answer::Field(field)
                }
            },
            Found::Outside => written(name),
            Found::NotFound => Answer::Nothing,
        }
    }

    /// A method of an instance of a class.
    fn instance_method(&self, class: &Id, name: &'b Text, arity: u32) -> Answer<'b>
        ensures { let reader = reader_of self.now in answer_of result ≡ on_value_answer reader name.now (method_of reader)
            (on_instance (λ declared. is_static_kind declared.kind) (method_from reader.view class.now name.now arity)) }
    {
        self.instance_only(name, method_of(self.variables.members, class, name, arity))
    }
}

/// A member that is outside, if it is there, with this name.
fn written_if<'b>(is_there: bool, name: &'b str) -> Answer<'b>
    ensures { answer_of result ≡ (if is_there then Some (outside_target name.now) else None) }
{
    if is_there {
        written(name)
    } else {
        Answer::Nothing
    }
}
