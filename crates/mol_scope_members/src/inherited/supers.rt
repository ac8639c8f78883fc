//! What stands after `super`.
ghost use Rattle.std.specs.Prelude.{◌≡◌};
ghost use Rattle.jav_scope.specs.Answers.{answered};
ghost use Rattle.jav_names.specs.LookUps.{super_constructor, super_method};
ghost use Rattle.mol_scope_members.specs.declaring.Indexed.{constructor_id};
ghost use Rattle.mol_resolve_rules.specs.ProgramViews.{program_view};

use crate::declaring::MemberIndex;
use crate::inherited::members::{method_of, or_of_object};
use jav_scope::{Found, is_object_method};
use mol_base::{Id, Text};
use mol_scope_classes::superclass_of;

/// The declaration of a method after `super.` in a class, by its name and number of parameters: that which is nearest from the superclass
/// up (JLS 15.12.1). Where the superclass is outside, so is the method; where there is none, it is outside if `Object` has it. It takes no
/// memory, and as much time as `method_of`.
pub fn super_method(members: &MemberIndex<'_>, class: &Id, name: &Text, arity: u32) -> Found<Id>
    ensures { result ≡ answered (λ declared. declared.key) (super_method (program_view members.now) class.now name.now arity) }
{
    match superclass_of(members.table(), class) {
        Found::Found(above) => method_of(members, &above, name, arity),
        Found::Outside => Found::Outside,
        Found::NotFound => or_of_object(Found::NotFound, is_object_method(name, arity)),
    }
}

/// The constructor that `super(..)` calls in a constructor of a class, by the number of arguments: one that the superclass declares, or
/// `None` for its default one (JLS 8.8.7.1). Where the superclass is outside, so is the constructor. It takes no memory, and as much time
/// as the look-up of a constructor.
pub fn super_constructor(members: &MemberIndex<'_>, class: &Id, arity: u32) -> Found<Option<Id>>
    ensures { result ≡ answered constructor_id (super_constructor (program_view members.now) class.now arity) }
{
    match superclass_of(members.table(), class) {
        Found::Found(above) => members.constructor_of(&above, arity),
        Found::Outside => Found::Outside,
        Found::NotFound => Found::NotFound,
    }
}
