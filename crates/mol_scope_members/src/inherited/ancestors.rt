//! The classes above a class.
ghost use Rattle.std.specs.Prelude.{◌≡◌};
ghost use Rattle.jav_names.specs.LookUps.{is_ancestor};
ghost use Rattle.mol_resolve_rules.specs.ProgramViews.{program_view};

use crate::declaring::MemberIndex;
use crate::inherited::rules::rules;
use mol_base::Id;

/// Whether the second class is an ancestor of the first: going up from the first meets it, before it comes back to the first (JLS 8.1.4).
/// It takes no memory, and the time is logarithmic in the number of classes.
pub fn is_ancestor(members: &MemberIndex<'_>, class: &Id, above: &Id) -> bool
    ensures { result ≡ is_ancestor (program_view members.now) class.now above.now }
{
    rules(members.table());
    if class == above {
        return false;
    }
    members.is_on_way(class, above)
}
