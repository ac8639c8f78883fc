//! What is looked for from a class up.
ghost use Rattle.std.specs.Prelude.{◌≡◌};
ghost use Rattle.mol_resolve_rules.specs.ProgramViews.{program_view};
ghost use Rattle.mol_scope_members.specs.inherited.Soughts.{found_in_class};

use crate::declaring::MemberIndex;
use mol_base::Id;

/// What is looked for in a class and its superclasses.
#[derive(Clone, Copy)]
pub(crate) enum Sought<'a> {
    /// A field by its name.
    Field(&'a str),
    /// A method by its name and its number of parameters.
    Method(&'a str, u32),
}

/// What a class has itself of what is looked for.
pub(crate) fn found_in_class(
    members: &MemberIndex<'_>,
    class: &Id,
    sought: Sought<'_>,
) -> Option<Id>
    ensures { result ≡ found_in_class (program_view members.now) sought.entry class.now }
{
    match sought {
        Sought::Field(name) => members.declared_field(class, name),
        Sought::Method(name, arity) => members.declared_method(class, name, arity),
    }
}
