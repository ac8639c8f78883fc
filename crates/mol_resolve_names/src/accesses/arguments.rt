//! Arguments of calls.
ghost use Rattle.std.specs.Prelude.{◌≡◌, ℕ, IfOk, option_map};
ghost use Rattle.jav_names.specs.UnitViews.{MemberKey};
ghost use Rattle.jav_names.specs.Views.{ViewDeclaration};
ghost use Rattle.mol_resolve_names.specs.accesses.Over.{IsOver};
ghost use Rattle.mol_resolve_members.specs.found.Found.{HasMethod, IsMethod};
ghost use Rattle.mol_resolve_rules.specs.Readers.{Reader};
ghost use Rattle.mol_resolve_rules.specs.ReadTrees.{arguments_of, with_params};

use mol_base::{Id, List, OutOfMemory};
use mol_resolve_members::{Finder, FoundMethod};
use mol_values_types::{Argument, IExpr};
use std::alloc::Global;

/// The arguments of a call of a method, each with its parameter; none where an argument has no value.
pub(crate) fn arguments(
    alloc: Global,
    finder: &Finder<'_>,
    method: &FoundMethod<'_>,
    values: Option<List<IExpr>>,
) -> Result<Option<List<Argument>>, OutOfMemory>
    requires { HasMethod finder.now method.now }
    ensures { IfOk result (λ args. (reader : Reader ℕ MemberKey) (declared : ViewDeclaration ℕ MemberKey) → IsOver finder.now reader
        → IsMethod finder.now declared method.now → args ≡ option_map (arguments_of reader declared) values) }
{
    match values {
        Some(values) => {
            let args = arguments_of(alloc, finder, method, values)?;
            Ok(Some(args))
        },
        None => Ok(None),
    }
}

/// Values as the arguments of a call of a method.
fn arguments_of(
    alloc: Global,
    finder: &Finder<'_>,
    method: &FoundMethod<'_>,
    values: List<IExpr>,
) -> Result<List<Argument>, OutOfMemory>
    requires { HasMethod finder.now method.now }
    ensures { IfOk result (λ args. (reader : Reader ℕ MemberKey) (declared : ViewDeclaration ℕ MemberKey) → IsOver finder.now reader
        → IsMethod finder.now declared method.now → args ≡ arguments_of reader declared values) }
{
    let params = finder.param_ids(alloc, method)?;
    with_params(alloc, params.as_slice(), values)
}

/// Each value with the parameter in its place; a value past the last parameter is left out.
fn with_params(
    alloc: Global,
    params: &[Id],
    values: List<IExpr>,
) -> Result<List<Argument>, OutOfMemory>
    ensures { IfOk result (λ args. args ≡ with_params params.now values) }
{
    let mut args = List::with_capacity(alloc, params.len())?;
    for value in values.into_vec() {
        let place = args.items().len();
        if place >= params.len() {
            continue;
        }
        let param = params[place];
        args.add(Argument { param, value })?;
    }
    Ok(args)
}
