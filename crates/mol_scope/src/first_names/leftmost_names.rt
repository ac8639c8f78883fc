//! What the first of several names reads as.
ghost use Rattle.std.specs.Prelude.{◌≡◌, ◌≤◌, ◌∷◌, length};
ghost use Rattle.jav_names.specs.DottedNames.{Name, Names};
ghost use Rattle.jav_names.specs.LookUps.{leftmost};
ghost use Rattle.mol_scope.specs.first_names.Readings.{file_place, IsRead};
ghost use Rattle.mol_resolve_rules.specs.ProgramViews.{program_view};

use crate::first_names::first_types::first_type;
use crate::first_names::reading::Leftmost;
use crate::typenames::ClassFile;
use crate::variables::VariablePlace;
use jav_scope::ImportIndex;
use mol_base::Text;

/// What the first of these names reads as at a place in the source file of its class, with these imports: a variable, a type or the
/// beginning of the full name of a class, else it is outside (JLS 6.5.2). It takes no memory. The time is that of `VariablePlace::found`
/// and, for each of the names, logarithmic in the number of classes.
pub fn leftmost<'b>(
    place: &VariablePlace<'_, 'b>,
    imports: &'b ImportIndex<'b>,
    names: &[Text],
) -> Leftmost<'b>
    requires { 1 ≤ length names.now }
    ensures { (first : Name) (rest : Names) → names.now ≡ first ∷ rest → IsRead result
        (leftmost (program_view place.now.members.now) (file_place place.now imports.now) first rest) }
{
    let file = ClassFile {
        classes: place.members.classes(),
        class: place.class,
        imports,
    };
    match place.found(names[0].as_str()) {
        Some(variable) => Leftmost::Variable(variable),
        None => Leftmost::Type(first_type(&file, names)),
    }
}
