//! Going up from a class, along one path of classes after another.
ghost use Rattle.std.specs.Prelude.{◌≡◌, suc, length, None};
ghost use Rattle.jav_scope.specs.Answers.{answered};
ghost use Rattle.jav_scope.specs.Climbs.{climb};
ghost use Rattle.mol_scope_members.specs.declaring.Owners.{IsNearest};
ghost use Rattle.mol_resolve_rules.specs.ProgramViews.{program_view};
ghost use Rattle.mol_scope_members.specs.inherited.Soughts.{found_in_class};

use crate::declaring::{MemberIndex, Nearest};
use crate::inherited::rules::rules;
use crate::inherited::sought::{Sought, found_in_class};
use jav_scope::Found;
use mol_base::Id;
use mol_scope_classes::superclass_of;

/// What is looked for, in the nearest class that has it from this class up. It takes no memory. The time is logarithmic in the number of
/// members, as many times as the way up leads over paths: no more than the number of classes has binary digits, but in a circle of
/// superclasses, where it is no more than the number of classes in it.
pub(crate) fn climbed(members: &MemberIndex<'_>, class: &Id, sought: Sought<'_>) -> Found<Id>
    ensures { result ≡ answered (λ found. found) (climb (suc (length (program_view members.now).classes.items))
        (program_view members.now) (found_in_class (program_view members.now) sought.entry) class.now) }
{
    rules(members.table());
    let mut at = *class;
    // As many steps as there are classes lead past each of them, or round a circle.
    let mut left = members.classes().count() + 1;
    while left > 0 {
        let next = nearest(members, &at, sought);
        if next.steps >= left {
            return Found::NotFound;
        }
        left -= next.steps + 1;
        if let Some(found) = found_in_class(members, &next.class, sought) {
            return Found::Found(found);
        }
        match superclass_of(members.table(), &next.class) {
            Found::Found(above) => at = above,
            Found::Outside => return Found::Outside,
            Found::NotFound => return Found::NotFound,
        }
    }
    Found::NotFound
}

/// Where to look next from a class up: none of the classes before it has what is looked for.
fn nearest(members: &MemberIndex<'_>, class: &Id, sought: Sought<'_>) -> Nearest
    ensures { IsNearest members.now (λ above. found_in_class (program_view members.now) sought.entry above ≡ None) class.now result }
{
    match sought {
        Sought::Field(name) => members.nearest_field_owner(class, name),
        Sought::Method(name, arity) => members.nearest_method_owner(class, name, arity),
    }
}
