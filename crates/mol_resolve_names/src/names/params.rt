//! The parameters of members.
ghost use Rattle.std.specs.Prelude.{◌≡◌, ◌<◌, IfOk, Some, length, map, slice_get};
ghost use Rattle.std.specs.List.{list_any, zip};
ghost use Rattle.std.specs.Str.{bytes_eq};
ghost use Rattle.jav_scope.specs.declared.source.SourceUnit.{SourceUnit};
ghost use Rattle.mol_resolve_names.specs.chains.InMembers.{view_param};
ghost use Rattle.mol_resolve_members.specs.members.Rows.{type_at};
ghost use Rattle.mol_resolve_names.specs.names.Given.{given_param};
ghost use Rattle.mol_resolve_members.specs.numbers.Members.{IsMember};
ghost use Rattle.mol_resolve_members.specs.places.Listings.{key_of};
ghost use Rattle.mol_resolve_members.specs.sources.Sources.{files_of};
ghost use Rattle.mol_resolve_rules.specs.Files.{declaration_at, files_view, params_of};
ghost use Rattle.mol_resolve_rules.specs.ReadFiles.{declared_ids, is_constructor_member};

use crate::chains::Parameter;
use jav_scope::{MemberRef, Scope, seen_type};
use jav_tree::{Member, Param};
use mol_base::{Id, OutOfMemory, Text, number_of};
use mol_resolve_members::Numbers;
use std::alloc::Global;

/// Parameters in the file of this number, each with its type and its identity.
pub(crate) fn parameters(
    alloc: Global,
    scope: &Scope<'_>,
    unit: u32,
    params: &[Param],
    ids: &[Id],
) -> Result<Vec<Parameter>, OutOfMemory>
    requires unit { unit < length scope.now }
    requires ids { length ids.now ≡ length params.now }
    ensures { IfOk result (λ given. (source : SourceUnit) → slice_get scope.now unit ≡ Some source
        → map view_param given.items ≡ map (given_param (type_at scope.now unit source)) (zip ids.now params.now)) }
{
    let mut given = Vec::new(alloc);
    for (place, param) in params.iter().enumerate() {
        let parameter = typed_parameter(alloc, scope, unit, param, ids[place])?;
        given.push(parameter)?;
    }
    Ok(given)
}

/// A parameter in the file of this number, with its type and this identity.
fn typed_parameter(
    alloc: Global,
    scope: &Scope<'_>,
    unit: u32,
    param: &Param,
    id: Id,
) -> Result<Parameter, OutOfMemory>
    requires { unit < length scope.now }
    ensures { IfOk result (λ parameter. (source : SourceUnit) → slice_get scope.now unit ≡ Some source
        → view_param parameter ≡ given_param (type_at scope.now unit source) (id, param.now)) }
{
    let name = param.name.copy(alloc)?;
    let ty = seen_type(alloc, scope, unit, &param.ty)?;
    Ok(Parameter { name, ty, id })
}

/// The parameters of a member; a field has none.
pub(crate) fn params_of(member: &Member) -> &[Param]
    ensures { result.now ≡ params_of member.now }
{
    match member {
        Member::Field(_) => &[],
        Member::Method(method) => method.params.items(),
        Member::Ctor(ctor) => ctor.params.items(),
    }
}

pub(crate) fn is_constructor(member: &Member) -> bool
    ensures { result ≡ is_constructor_member member.now }
{
    matches!(member, Member::Ctor(_))
}

/// The identities of the parameters of a member, in order.
pub(crate) fn param_ids(
    alloc: Global,
    numbers: &Numbers<'_>,
    at: MemberRef,
    member: &Member,
) -> Result<Vec<Id>, OutOfMemory>
    requires { IsMember numbers.now (key_of at) member.now }
    ensures { IfOk result (λ ids. ids.items
        ≡ declared_ids (files_of numbers.now) (declaration_at (files_view (files_of numbers.now)) (key_of at))) }
{
    match member {
        Member::Field(_) => Ok(Vec::new(alloc)),
        Member::Method(_) => numbers.param_ids(alloc, at, number_of(params_of(member).len())?),
        Member::Ctor(_) => numbers.param_ids(alloc, at, number_of(params_of(member).len())?),
    }
}

/// Whether one of these parameters has this name. It takes no memory.
pub(crate) fn is_named(params: &[Parameter], name: &Text) -> bool
    ensures { result ≡ list_any (λ param. bytes_eq name.now param.name) params.now }
{
    params.iter().any(|param| *name == param.name)
}
