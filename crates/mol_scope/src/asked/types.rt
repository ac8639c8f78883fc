//! What the names of types read as (JLS 6.5.5).
ghost use Rattle.std.specs.Prelude.{◌≡◌, Some};
ghost use Rattle.jav_names.specs.TypeTexts.{imported_text};
ghost use Rattle.mol_scope.specs.asked.Answers.{answer_of};
ghost use Rattle.mol_scope.specs.asked.Places.{reader_of};
ghost use Rattle.mol_base.specs.declared.ident.Id.{Id as Identity};
ghost use Rattle.mol_spell_rules.specs.references.References.{outside_target};
ghost use Rattle.mol_resolve_rules.specs.Locals.{Locals};
ghost use Rattle.mol_spell_rules.specs.Answers.{answer};
ghost use Rattle.mol_spell_rules.specs.Writers.{type_asked};

use crate::asked::answer::Answer;
use crate::asked::dotted_text::DottedText;
use crate::asked::names::written;
use crate::asked::place::NamePlace;
use crate::typenames::TypeReading;
use mol_base::Text;

impl<'b> NamePlace<'_, 'b> {
    /// What the name of a type reads as, simple or with dots. It takes no memory. The time is linear in the length of the name and
    /// logarithmic in the numbers of classes and imports.
    pub fn type_named(&self, text: &'b str) -> Answer<'b>
        ensures { (locals : Locals Identity) → answer_of result ≡ answer (reader_of self.now) locals (type_asked text.now) }
    {
        match self.file().type_named(text) {
            TypeReading::Class(class) => Answer::Class(class),
            TypeReading::Imported(full, rest) => imported(full, rest),
            TypeReading::Written => written(text),
            TypeReading::Nothing => Answer::Nothing,
        }
    }
}

/// An imported type, and the names that follow it.
pub(crate) fn imported<'b>(full: &'b Text, names: &'b str) -> Answer<'b>
    ensures { answer_of result ≡ Some (outside_target (imported_text full.now names.now)) }
{
    if names.is_empty() {
        return written(full.as_str());
    }
    Answer::Outside(DottedText {
        front: full.as_str(),
        rest: Some(names),
    })
}
