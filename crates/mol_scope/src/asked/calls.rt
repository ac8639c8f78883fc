//! What the names of methods read as without a value before them (JLS 15.12).
ghost use Rattle.std.specs.Prelude.{◌≡◌};
ghost use Rattle.std.specs.FinMap as map;
ghost use Rattle.jav_scope.specs.Answers.{answered};
ghost use Rattle.jav_names.specs.OnValues.{is_static_kind};
ghost use Rattle.jav_names.specs.Views.{Found as Read, ViewDeclaration};
ghost use Rattle.mol_scope.specs.asked.Answers.{answer_of};
ghost use Rattle.mol_scope.specs.asked.Places.{IsFoundIn, program_of, reader_of};
ghost use Rattle.mol_base.specs.declared.ident.Id.{Id as Identity};
ghost use Rattle.mol_resolve_rules.specs.Locals.{Locals};
ghost use Rattle.mol_resolve_rules.specs.ProgramViews.{kind_in};
ghost use Rattle.mol_spell_rules.specs.Answers.{answer, super_method_answer};
ghost use Rattle.mol_spell_rules.specs.Writers.{call_asked, super_method_asked};

use crate::asked::answer::Answer;
use crate::asked::names::written;
use crate::asked::place::NamePlace;
use jav_scope::Found;
use mol_base::{Id, Text};
use mol_scope_members::{method_of, super_method};
use mol_values_types::{Known, MethodKind};

impl<'b> NamePlace<'_, 'b> {
    /// What the name of a method reads as, with so many arguments and without anything before it: a method of the class, or what is
    /// outside. It takes no memory, and as much time as the look-up of a method.
    pub fn call(&self, name: &'b Text, arity: u32) -> Answer<'b>
        ensures { (locals : Locals Identity) → answer_of result ≡ answer (reader_of self.now) locals (call_asked name.now arity) }
    {
        match method_of(self.variables.members, &self.variables.class, name, arity) {
            Found::Found(declared) => Answer::Method(self.method_at(&declared)),
            Found::Outside => written(name.as_str()),
            Found::NotFound => Answer::Nothing,
        }
    }

    /// What the name of a method reads as after `super.`, with so many arguments: a method from the superclass up, but for static ones, or
    /// what is outside. It takes no memory, and as much time as the look-up of a method.
    pub fn super_method(&self, name: &'b Text, arity: u32) -> Answer<'b>
        ensures { (locals : Locals Identity) → answer_of result ≡ answer (reader_of self.now) locals (super_method_asked name.now arity) }
    {
        let class = &self.variables.class;
        self.instance_only(
            name,
            super_method(self.variables.members, class, name, arity),
        )
    }

    /// The method of a declaration that was found, but for static ones.
    pub(crate) fn instance_only(&self, name: &'b Text, found: Found<Id>) -> Answer<'b>
        ensures { (read : Read (ViewDeclaration Identity Identity)) → IsFoundIn (program_of self.now) read
            → found ≡ answered (λ declared. declared.key) read
            → answer_of result ≡ super_method_answer (reader_of self.now) name.now read }
    {
        match found {
            Found::Found(declared) => {
                let method = self.method_at(&declared);
                if self.is_static(&method) {
                    Answer::Nothing
                } else {
                    Answer::Method(method)
                }
            },
            Found::Outside => written(name.as_str()),
            Found::NotFound => Answer::Nothing,
        }
    }

    /// Whether this is a static method.
    pub(crate) fn is_static(&self, method: &Id) -> bool
        ensures { result ≡ is_static_kind (kind_in (map.get (program_of self.now).known method.now)) }
    {
        match self.table().known(*method) {
            Some(Known::Method(MethodKind::Static)) => true,
            _ => false,
        }
    }
}
