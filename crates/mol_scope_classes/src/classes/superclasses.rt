//! What classes extend.
ghost use Rattle.std.specs.Prelude.{◌≡◌, false, Some};
ghost use Rattle.jav_scope.specs.Answers.{answered};
ghost use Rattle.jav_scope.specs.Climbs.{above};
ghost use Rattle.jav_names.specs.LookUps.{class_in, found_or, is_outside};
ghost use Rattle.jav_names.specs.Views.{class_type};
ghost use Rattle.mol_resolve_rules.specs.ProgramViews.{program_view, seen};

use crate::cells::{is_living_class, parent_of};
use jav_scope::Found;
use mol_base::Id;
use mol_table::Table;
use mol_values_types::IType;

/// What a class extends, whether or not it lives: a class that lives, something outside, or nothing that can be looked into (JLS 8.1.4);
/// nothing where there is no such class. It takes no memory.
pub fn superclass_of(table: &Table, class: &Id) -> Found<Id>
    ensures { result ≡ answered (λ above. above) (above (program_view table.now) class.now) }
{
    match parent_of(table, class) {
        Some(parent) => extended(table, parent),
        None => Found::NotFound,
    }
}

/// What a class extends that extends this type.
fn extended(table: &Table, ty: &IType) -> Found<Id>
    ensures { result ≡ answered (λ above. above)
        (found_or (class_in (program_view table.now).classes (Some (seen ty.now))) (is_outside (Some (seen ty.now)))) }
{
    match ty {
        IType::Class(class) => living(table, class),
        IType::Imported(_, _) => Found::Outside,
        IType::Written(_) => Found::Outside,
        _ => Found::NotFound,
    }
}

/// A class, if it lives.
fn living(table: &Table, class: &Id) -> Found<Id>
    ensures { result ≡ answered (λ above. above)
        (found_or (class_in (program_view table.now).classes (Some (class_type class.now))) false) }
{
    if is_living_class(table, class) {
        Found::Found(*class)
    } else {
        Found::NotFound
    }
}
