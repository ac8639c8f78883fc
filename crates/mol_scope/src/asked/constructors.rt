//! What constructors are, after `new` and the name of a type, and by `super(..)` (JLS 8.8.7.1, 15.9).
ghost use Rattle.std.specs.Prelude.{◌≡◌};
ghost use Rattle.jav_names.specs.LookUps.{constructor_from};
ghost use Rattle.mol_scope.specs.asked.Answers.{answer_of};
ghost use Rattle.mol_scope.specs.asked.Places.{reader_of};
ghost use Rattle.mol_base.specs.declared.ident.Id.{Id as Identity};
ghost use Rattle.mol_resolve_rules.specs.Locals.{Locals};
ghost use Rattle.mol_spell_rules.specs.Answers.{answer, constructor_answer};
ghost use Rattle.mol_spell_rules.specs.Writers.{constructor_asked, super_constructor_asked};

use crate::asked::answer::Answer;
use crate::asked::names::written;
use crate::asked::place::NamePlace;
use crate::asked::types::imported;
use crate::typenames::TypeReading;
use jav_scope::Found;
use mol_base::Id;
use mol_scope_classes::superclass_of;

impl<'b> NamePlace<'_, 'b> {
    /// What the name of a type after `new` reads as, with so many arguments: a constructor of a class, or what is outside. It takes no
    /// memory. The time is that of `type_named` and of the look-up of a constructor.
    pub fn constructor(&self, text: &'b str, arity: u32) -> Answer<'b>
        ensures { (locals : Locals Identity) → answer_of result ≡ answer (reader_of self.now) locals (constructor_asked text.now arity) }
    {
        match self.file().type_named(text) {
            TypeReading::Class(class) => self.constructor_of(&class, text, arity),
            TypeReading::Imported(full, rest) => imported(full, rest),
            TypeReading::Written => written(text),
            TypeReading::Nothing => Answer::Nothing,
        }
    }

    /// What `super(..)` reads as, with so many arguments: nothing outside constructors. It takes no memory, and as much time as the look-up
    /// of a constructor.
    pub fn super_constructor(&self, arity: u32) -> Answer<'b>
        ensures { (locals : Locals Identity) → answer_of result ≡ answer (reader_of self.now) locals (super_constructor_asked arity) }
    {
        if !self.in_constructor {
            return Answer::Nothing;
        }
        match superclass_of(self.table(), &self.variables.class) {
            Found::Found(above) => self.constructor_of(&above, "super", arity),
            Found::Outside => written("super"),
            Found::NotFound => Answer::Nothing,
        }
    }

    /// The constructor of a class that takes so many arguments, by a name.
    fn constructor_of(&self, class: &Id, name: &'b str, arity: u32) -> Answer<'b>
        ensures { let reader = reader_of self.now in
            answer_of result ≡ constructor_answer reader name.now (constructor_from reader.view class.now arity) }
    {
        match self.variables.members.constructor_of(class, arity) {
            Found::Found(Some(declared)) => Answer::Method(self.method_at(&declared)),
            Found::Found(None) => Answer::Default(*class),
            Found::Outside => written(name),
            Found::NotFound => Answer::Nothing,
        }
    }
}
