//! A member with its types.
ghost use Rattle.std.specs.Prelude.{◌≡◌, ◌<◌, IfOk, Some, length, map, slice_get};
ghost use Rattle.std.specs.List.{list_any};
ghost use Rattle.std.specs.Str.{bytes_eq};
ghost use Rattle.jav_names.specs.seen.Kept.{view_type};
ghost use Rattle.jav_scope.specs.declared.source.SourceUnit.{SourceUnit};
ghost use Rattle.mol_resolve_rules.specs.Files.{params_of};
ghost use Rattle.mol_resolve_rules.specs.MemberFaults.{row_of};
ghost use Rattle.mol_resolve_members.specs.members.Rows.{kept_row, is_static_member, type_at, type_of_member, types_of_params};

use jav_names::SeenType;
use jav_scope::{MemberRef, Scope, seen_type};
use jav_tree::{Member, Param};
use mol_base::{OutOfMemory, Text};
use std::alloc::Global;

/// A member of a class of source files, with its types as they are read.
#[derive(Drop)]
pub struct MemberRow<'a> {
    /// The number of its file, and its place among the members there.
    pub at: MemberRef,
    pub member: &'a Member,
    pub is_static: bool,
    /// The type of a field, or that of what a method gives; `void` for a constructor.
    pub ty: SeenType,
    /// The types of its parameters.
    pub params: Vec<SeenType>,
}

impl<'a> MemberRow<'a> {
    /// The row of the member at this place.
    pub(crate) fn new(
        alloc: Global,
        scope: &Scope<'_>,
        at: MemberRef,
        member: &'a Member,
    ) -> Result<MemberRow<'a>, OutOfMemory>
        requires { at.unit < length scope.now }
        ensures { IfOk result (λ row. (source : SourceUnit) → slice_get scope.now at.unit ≡ Some source
            → kept_row row ≡ row_of (type_at scope.now at.unit source) at.unit (at.member, member.now)) }
    {
        let params = param_types(alloc, scope, at.unit, params_of(member))?;
        let ty = type_of_member(alloc, scope, at.unit, member)?;
        Ok(MemberRow {
            at,
            member,
            is_static: is_static(member),
            ty,
            params,
        })
    }
}

/// The parameters of a member; a field has none.
fn params_of(member: &Member) -> &[Param]
    ensures { result.now ≡ params_of member.now }
{
    match member {
        Member::Field(_) => &[],
        Member::Method(method) => method.params.items(),
        Member::Ctor(ctor) => ctor.params.items(),
    }
}

/// The types of parameters in the file of this number.
fn param_types(
    alloc: Global,
    scope: &Scope<'_>,
    unit: u32,
    params: &[Param],
) -> Result<Vec<SeenType>, OutOfMemory>
    requires { unit < length scope.now }
    ensures { IfOk result (λ types. (source : SourceUnit) → slice_get scope.now unit ≡ Some source
        → map view_type types.items ≡ types_of_params (type_at scope.now unit source) params.now) }
{
    let mut types = Vec::new(alloc);
    for param in params {
        let ty = seen_type(alloc, scope, unit, &param.ty)?;
        types.push(ty)?;
    }
    Ok(types)
}

/// The type of a field, or that of what a method gives; `void` for a constructor.
fn type_of_member(
    alloc: Global,
    scope: &Scope<'_>,
    unit: u32,
    member: &Member,
) -> Result<SeenType, OutOfMemory>
    requires { unit < length scope.now }
    ensures { IfOk result (λ ty. (source : SourceUnit) → slice_get scope.now unit ≡ Some source
        → view_type ty ≡ type_of_member (type_at scope.now unit source) member.now) }
{
    match member {
        Member::Field(field) => seen_type(alloc, scope, unit, &field.ty),
        Member::Method(method) => seen_type(alloc, scope, unit, &method.result),
        Member::Ctor(_) => Ok(SeenType::Void),
    }
}

fn is_static(member: &Member) -> bool
    ensures { result ≡ is_static_member member.now }
{
    match member {
        Member::Field(field) => has(field.words.items(), b"static"),
        Member::Method(method) => method.is_static,
        Member::Ctor(_) => false,
    }
}

/// Whether a word is among these modifiers.
fn has(words: &[Text], word: &[u8]) -> bool
    ensures { result ≡ list_any (bytes_eq word.now) words.now }
{
    words.iter().any(|each| word == each.bytes())
}
