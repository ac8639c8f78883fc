//! The fields and methods of classes.
ghost use Rattle.std.specs.Prelude.{◌≡◌};
ghost use Rattle.jav_scope.specs.Answers.{answered, or_of_object};
ghost use Rattle.jav_names.specs.LookUps.{field_from, method_from};
ghost use Rattle.mol_resolve_rules.specs.ProgramViews.{program_view};

use crate::declaring::MemberIndex;
use crate::inherited::climbed::climbed;
use crate::inherited::sought::Sought;
use jav_scope::{Found, is_object_method};
use mol_base::{Id, Text};

/// The field of this name that is nearest from a class up: the class and its superclasses that live, up to one that was met already
/// (JLS 8.3). Without one it is outside where they end in an outside class. It takes no memory. The time is that of some look-ups, each
/// logarithmic in the number of fields: as many as the number of classes has binary digits, but in a circle of superclasses.
pub fn field_of(members: &MemberIndex<'_>, class: &Id, name: &str) -> Found<Id>
    ensures { result ≡ answered (λ field. field.key) (field_from (program_view members.now) class.now name.now) }
{
    climbed(members, class, Sought::Field(name))
}

/// The declaration of the method of this name and number of parameters that is nearest from a class up (JLS 8.4.8, 15.12.2). Without one
/// it is outside where the superclasses end in an outside class, or where `Object` has it. It takes no memory, and as much time as
/// `field_of`, by the number of declarations.
pub fn method_of(members: &MemberIndex<'_>, class: &Id, name: &Text, arity: u32) -> Found<Id>
    ensures { result ≡ answered (λ declared. declared.key) (method_from (program_view members.now) class.now name.now arity) }
{
    let found = climbed(members, class, Sought::Method(name.as_str(), arity));
    or_of_object(found, is_object_method(name, arity))
}

/// A method that is found nowhere may be one of `Object`.
pub(crate) fn or_of_object(found: Found<Id>, is_objects: bool) -> Found<Id>
    ensures { result ≡ or_of_object is_objects found }
{
    match found {
        Found::NotFound if is_objects => Found::Outside,
        found => found,
    }
}
