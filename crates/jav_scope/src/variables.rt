//! The look-ups of variables, and of what stands before a dot.
ghost use Rattle.std.specs.Prelude.{◌≡◌, ◌<◌, ◌≤◌, ◌^◌, ◌∷◌, Some, length, slice_get};
ghost use Rattle.jav_names.specs.DottedNames.{Name, Names};
ghost use Rattle.jav_names.specs.LookUps.{variable, leftmost};
ghost use Rattle.jav_names.specs.UnitViews.{place_in};
ghost use Rattle.jav_scope.specs.Answers.{answered, variable_ref, leftmost_answered};
ghost use Rattle.jav_scope.specs.Entries.{view_in};
ghost use Rattle.jav_scope.specs.declared.source.SourceUnit.{SourceUnit};

use crate::found::{Found, Leftmost, VarRef};
use crate::places::{first_place, last_place};
use crate::scope::Scope;
use mol_base::Text;

impl Scope<'_> {
    /// What the name of a variable reads as in the file of this number, where these locals are in scope, the nearest last, in a
    /// method or constructor with these parameters: a local or a parameter by its place, else a field (JLS 6.4.1). The number of the
    /// member that it stands in is part of its place, and decides nothing. It takes no memory. The time is linear in the locals and
    /// parameters, and that of `field_of`.
    pub fn variable(
        &self,
        unit: u32,
        _member: u32,
        locals: &[Text],
        params: &[Text],
        name: &Text,
    ) -> Found<VarRef>
        requires locals { length locals.now < 2 ^ 32 }
        requires params { length params.now < 2 ^ 32 }
        ensures { (source : SourceUnit) → slice_get self.now unit ≡ Some source → result
            ≡ answered variable_ref (variable (view_in self.now) (place_in (unit, source.unit) locals.now params.now) name.now) }
    {
        if let Some(place) = last_place(locals, name) {
            return Found::Found(VarRef::Local(place));
        }
        if let Some(place) = first_place(params, name) {
            return Found::Found(VarRef::Param(place));
        }
        match self.field_of(unit, name) {
            Found::Found(field) => Found::Found(VarRef::Member(field)),
            Found::Outside => Found::Outside,
            Found::NotFound => Found::NotFound,
        }
    }

    /// What the first of several names reads as that are joined by dots, in the same place: a variable, or a class with the number
    /// of names in its shortest spelling, from 1; else it is outside (JLS 6.5.2). It takes no memory. The time is that of `variable`
    /// and, for each of the names, logarithmic in the number of classes.
    pub fn leftmost(
        &self,
        unit: u32,
        member: u32,
        locals: &[Text],
        params: &[Text],
        names: &[Text],
    ) -> Found<Leftmost>
        requires unit { unit < length self.now }
        requires locals { length locals.now < 2 ^ 32 }
        requires params { length params.now < 2 ^ 32 }
        requires some { 1 ≤ length names.now }
        requires names { length names.now < 2 ^ 32 }
        ensures { (source : SourceUnit) (first : Name) (rest : Names) → slice_get self.now unit ≡ Some source → names.now ≡ first ∷ rest
            → result
            ≡ leftmost_answered (leftmost (view_in self.now) (place_in (unit, source.unit) locals.now params.now) first rest) }
    {
        match self.variable(unit, member, locals, params, &names[0]) {
            Found::Found(variable) => Found::Found(Leftmost::Var(variable)),
            Found::Outside => self.names.leftmost_type(unit, names),
            Found::NotFound => self.names.leftmost_type(unit, names),
        }
    }
}
