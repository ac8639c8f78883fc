//! What the first of several names reads as that are joined by dots, where it is no variable.
ghost use Rattle.std.specs.Prelude.{◌≡◌, ◌<◌, ◌≤◌, ◌^◌, ◌∷◌, Some, length, slice_get};
ghost use Rattle.jav_names.specs.DottedNames.{Name, Names};
ghost use Rattle.jav_names.specs.LookUps.{class_or_outside, fewest, leftmost_type, simple_type};
ghost use Rattle.jav_names.specs.UnitViews.{MemberKey, header_of};
ghost use Rattle.jav_scope.specs.Answers.{leftmost_answered};
ghost use Rattle.jav_scope.specs.Entries.{classes_in};
ghost use Rattle.jav_scope.specs.declared.source.SourceUnit.{SourceUnit};

use crate::found::{Found, Leftmost};
use crate::reading::Reading;
use crate::type_names::TypeNames;
use jav_names::Spelling;
use mol_base::Text;

impl TypeNames<'_> {
    /// What the first of these names reads as in the file of this number, as the name of a class or as the beginning of one. It takes
    /// no memory.
    pub fn leftmost_type(&self, unit: u32, names: &[Text]) -> Found<Leftmost>
        requires unit { unit < length self.now }
        requires some { 1 ≤ length names.now }
        requires names { length names.now < 2 ^ 32 }
        ensures { (source : SourceUnit) (first : Name) (rest : Names) → slice_get self.now unit ≡ Some source → names.now ≡ first ∷ rest
            → result ≡ leftmost_answered (leftmost_type {M = MemberKey} (classes_in self.now) first rest
            (simple_type (classes_in self.now) (header_of (unit, source.unit)) first)) }
    {
        match self.simple(unit, names[0].as_str()) {
            Reading::Class(class) => Found::Found(Leftmost::Class(class, 1)),
            Reading::Imported => Found::Outside,
            Reading::Written => self.fewest(names),
            Reading::Nothing => Found::Outside,
        }
    }

    /// The class that as few of these names as can be spell, and how many do.
    fn fewest(&self, names: &[Text]) -> Found<Leftmost>
        requires { length names.now < 2 ^ 32 }
        ensures { (first : Name) (rest : Names) → names.now ≡ first ∷ rest
            → result ≡ leftmost_answered (class_or_outside {M = MemberKey} (fewest (classes_in self.now) first rest)) }
    {
        for place in 0..names.len() {
            let count = place + 1;
            if let Some(class) = self.class_named(&Spelling::Names(&names[..count])) {
                return Found::Found(Leftmost::Class(class, count as u32));
            }
        }
        Found::Outside
    }
}
