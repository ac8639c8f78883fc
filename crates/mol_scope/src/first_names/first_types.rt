//! What the first of several names reads as that is no variable.
ghost use Rattle.std.specs.Prelude.{◌≡◌, ◌≤◌, ◌∷◌, length};
ghost use Rattle.jav_names.specs.DottedNames.{Name, Names};
ghost use Rattle.jav_names.specs.LookUps.{class_or_outside, fewest, leftmost_type, simple_type};
ghost use Rattle.mol_base.specs.declared.ident.Id.{Id};
ghost use Rattle.mol_scope.specs.first_names.Readings.{type_read};
ghost use Rattle.mol_scope.specs.typenames.Readings.{classes_of, header_of};

use crate::first_names::reading::FirstType;
use crate::typenames::{ClassFile, TypeReading};
use jav_names::Spelling;
use mol_base::Text;

/// What the first of these names reads as in the source file of a class, as the name of a type or as the beginning of the full name of a
/// class (JLS 6.5.2, 6.5.4). It takes no memory. The time is, for each of the names, logarithmic in the number of classes.
pub fn first_type<'a>(file: &ClassFile<'a>, names: &[Text]) -> FirstType<'a>
    requires { 1 ≤ length names.now }
    ensures { (first : Name) (rest : Names) → names.now ≡ first ∷ rest → type_read result
        ≡ leftmost_type {M = Id} (classes_of file.now) first rest (simple_type (classes_of file.now) (header_of file.now) first) }
{
    match file.simple(names[0].as_str()) {
        TypeReading::Class(class) => FirstType::Class(class, 1),
        TypeReading::Imported(full, _) => FirstType::Imported(full),
        TypeReading::Written => fewest(file, names),
        TypeReading::Nothing => FirstType::Outside,
    }
}

/// The class that as few of these names as can be spell, and how many do.
fn fewest<'a>(file: &ClassFile<'a>, names: &[Text]) -> FirstType<'a>
    ensures { (first : Name) (rest : Names) → names.now ≡ first ∷ rest
        → type_read result ≡ class_or_outside {M = Id} (fewest (classes_of file.now) first rest) }
{
    for place in 0..names.len() {
        let count = place + 1;
        if let Some(class) = file.classes.class_named(&Spelling::Names(&names[..count])) {
            return FirstType::Class(class, count);
        }
    }
    FirstType::Outside
}
