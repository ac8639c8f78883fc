//! Which of two declarations stands higher.
ghost use Rattle.std.specs.Prelude.{◌≡◌};
ghost use Rattle.mol_table_rules.specs.Faults.{is_above};
ghost use Rattle.mol_scope_members.specs.topmost.Highest.{higher as higher_of, is_over as is_over_of};

use mol_base::Id;
use mol_scope_classes::{Hierarchy, owner_of};
use mol_table::Table;

/// The second of two declarations where its class is an ancestor of that of the first and not the other way round too; else the first.
pub(crate) fn higher(table: &Table, hierarchy: &Hierarchy<'_>, top: &Id, decl: &Id) -> Id
    requires { hierarchy.now ≡ table.now }
    ensures { result ≡ higher_of table.now top.now decl.now }
{
    if is_over(table, hierarchy, top, decl) && !is_over(table, hierarchy, decl, top) {
        *decl
    } else {
        *top
    }
}

/// Whether the class of the second declaration is that of the first, or an ancestor of it.
pub(crate) fn is_over(table: &Table, hierarchy: &Hierarchy<'_>, decl: &Id, above: &Id) -> bool
    requires { hierarchy.now ≡ table.now }
    ensures { result ≡ is_over_of table.now decl.now above.now }
{
    is_above(hierarchy, owner_of(table, decl), owner_of(table, above))
}

/// Whether the second is the first class, or an ancestor of it.
fn is_above(hierarchy: &Hierarchy<'_>, class: Option<Id>, above: Option<Id>) -> bool
    ensures { result ≡ is_above hierarchy.now class above }
{
    match (class, above) {
        (Some(class), Some(above)) => hierarchy.is_on_way(&class, &above),
        _ => false,
    }
}
