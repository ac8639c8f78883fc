//! What names with dots between them begin with.
ghost use Rattle.std.specs.Prelude.{◌≡◌, ◌<◌, ◌≤◌, ◌^◌, ◌||◌, Bool, suc, IfOk, [], ◌∷◌, Some, is_some, length, slice_get};
ghost use Rattle.std.specs.List.{position};
ghost use Rattle.jav_scope.specs.Entries.{view_in};
ghost use Rattle.jav_scope.specs.declared.source.SourceUnit.{SourceUnit};
ghost use Rattle.jav_names.specs.DottedNames.{Name, Names};
ghost use Rattle.jav_names.specs.LookUps.{leftmost};
ghost use Rattle.jav_names.specs.UnitViews.{place_in};
ghost use Rattle.mol_resolve_names.specs.chains.InMembers.{has_name, names_of_params, reader_in};
ghost use Rattle.mol_resolve_readings.specs.locals.Scoped.{locals_of, nearest_local};
ghost use Rattle.mol_resolve_readings.specs.reads.Chains.{chain_by, chain_of};
ghost use Rattle.mol_resolve_readings.specs.reads.Reads.{names_of};
ghost use Rattle.mol_resolve_rules.specs.Locals.{names_in_scope};

use crate::chains::parameter::{Parameter, place_of};
use crate::chains::spelled::names_of;
use jav_scope::{Found, Leftmost, Scope};
use jav_tree::Expr;
use mol_base::{OutOfMemory, Text, number_of};
use mol_resolve_readings::{Chain, Locals};
use std::alloc::Global;

/// What the names that an expression is begin with (JLS 6.5.2), where no more follow after a dot: in a member of the class of the file of
/// this number, from 0, with these parameters and locals in scope. `Err` is want of memory. The time is linear in the names and in the
/// parameters, and for each name logarithmic in the number of classes.
pub fn chain_of(
    alloc: Global,
    scope: &Scope<'_>,
    unit: u32,
    params: &[Parameter],
    locals: &Locals,
    e: &Expr,
) -> Result<Chain, OutOfMemory>
    requires { unit < length scope.now }
    ensures { IfOk result (λ chain. (source : SourceUnit) (in_constructor : Bool) → slice_get scope.now unit ≡ Some source →
        let reader = reader_in scope.now unit source params.now in_constructor in
        chain ≡ chain_of reader (locals_of locals.now) (names_of reader e.now) []) }
{
    match names_of(alloc, e)? {
        Some(names) => begun(scope, unit, params, locals, names.items()),
        None => Ok(Chain::NoNames),
    }
}

/// What these names begin with.
fn begun(
    scope: &Scope<'_>,
    unit: u32,
    params: &[Parameter],
    locals: &Locals,
    names: &[Text],
) -> Result<Chain, OutOfMemory>
    requires { unit < length scope.now }
    ensures { IfOk result (λ chain. (source : SourceUnit) (first : Name) (rest : Names) → slice_get scope.now unit ≡ Some source
        → names.now ≡ first ∷ rest → chain ≡ chain_by (suc (length rest)) (leftmost (view_in scope.now)
        (place_in (unit, source.unit) (names_in_scope (locals_of locals.now)) (names_of_params params.now)) first rest)) }
{
    // As many as have numbers.
    number_of(names.len())?;
    match names {
        [first, ..] => {
            if is_declared(params, locals, first) {
                Ok(Chain::NoClass)
            } else {
                Ok(class_of(scope, unit, names))
            }
        },
        [] => Ok(Chain::NoClass),
    }
}

/// The class with which these names begin, where the first of them is no local and no parameter.
fn class_of(scope: &Scope<'_>, unit: u32, names: &[Text]) -> Chain
    requires unit { unit < length scope.now }
    requires some { 1 ≤ length names.now }
    requires names { length names.now < 2 ^ 32 }
    ensures { (source : SourceUnit) (first : Name) (rest : Names) → slice_get scope.now unit ≡ Some source → names.now ≡ first ∷ rest
        → result ≡ chain_by (suc (length rest)) (leftmost (view_in scope.now) (place_in (unit, source.unit) [] []) first rest) }
{
    match scope.leftmost(unit, 0, &[], &[], names) {
        Found::Found(Leftmost::Class(class, spelling)) => {
            Chain::Class(class, spelling as usize, names.len())
        },
        Found::Found(Leftmost::Var(_)) => Chain::NoClass,
        Found::Outside => Chain::NoClass,
        Found::NotFound => Chain::NoClass,
    }
}

/// Whether a local or a parameter of this name is in scope.
fn is_declared(params: &[Parameter], locals: &Locals, name: &Text) -> bool
    ensures { result ≡ (is_some (nearest_local (locals_of locals.now) name.now)
        || is_some (position (has_name name.now) params.now)) }
{
    locals.find(name).is_some() || place_of(params, name).is_some()
}
