//! Variables by their names.
ghost use Rattle.std.specs.Prelude.{◌≡◌, Some, slice_get};
ghost use Rattle.jav_scope.specs.Entries.{view_in};
ghost use Rattle.jav_scope.specs.declared.source.SourceUnit.{SourceUnit};
ghost use Rattle.jav_names.specs.LookUps.{variable};
ghost use Rattle.jav_names.specs.UnitViews.{place_in};
ghost use Rattle.mol_resolve_names.specs.chains.InMembers.{names_of_params};
ghost use Rattle.mol_resolve_members.specs.found.Found.{Answers};
ghost use Rattle.mol_resolve_readings.specs.locals.Scoped.{locals_of};
ghost use Rattle.mol_resolve_rules.specs.Locals.{names_in_scope};
ghost use Rattle.mol_resolve_names.specs.lone_names.Variables.{IsVariable};

use crate::chains::{Parameter, place_of};
use jav_names::SeenType;
use jav_scope::Found;
use mol_base::Text;
use mol_resolve_members::{Finder, FoundField};
use mol_resolve_readings::Locals;

/// A variable that a name reads as.
#[derive(Clone, Copy)]
pub(crate) enum Variable<'a> {
    /// A local, by its number, with its type.
    Local(u32, &'a SeenType),
    /// A parameter.
    Parameter(&'a Parameter),
    /// A field.
    Field(FoundField<'a>),
}

/// The variable of a name, in a member of the class of the file of this number: the nearest local in scope, else the parameter, else the
/// field (JLS 6.4.1). It takes no memory.
pub(crate) fn variable_named<'a>(
    finder: &Finder<'a>,
    class: u32,
    params: &'a [Parameter],
    locals: &'a Locals,
    name: &Text,
) -> Found<Variable<'a>>
    ensures { (source : SourceUnit) → Answers (IsVariable finder.now (locals_of locals.now) params.now) result
        (variable (view_in finder.now)
        (place_in (class, source.unit) (names_in_scope (locals_of locals.now)) (names_of_params params.now)) name.now) }
{
    if let Some(number) = locals.find(name) {
        let declared = locals.declared();
        return Found::Found(Variable::Local(number, &declared[number as usize].ty));
    }
    if let Some(place) = place_of(params, name) {
        return Found::Found(Variable::Parameter(&params[place]));
    }
    match finder.field_of(class, name) {
        Found::Found(field) => Found::Found(Variable::Field(field)),
        Found::Outside => Found::Outside,
        Found::NotFound => Found::NotFound,
    }
}
