//! Members as they are compared.
ghost use Rattle.std.specs.Prelude.{◌≡◌};
ghost use Rattle.mol_resolve_members.specs.members.Rows.{kept_row, kind_of, name_of};
ghost use Rattle.mol_resolve_rules.specs.Files.{place_of_member};
ghost use Rattle.mol_resolve_classes.specs.signatures.Repeats.{kind_of as signature_kind};
ghost use Rattle.mol_resolve_classes.specs.related.Compared.{is_kind, seen_declaration, seen_declared, seen_row, seen_signature};

use crate::namesakes::Declaration;
use crate::signatures::{MemberKind, Signature};
use jav_tree::Member;
use mol_resolve_members::MemberRow;

/// A member by what tells it apart from those of its class.
pub(crate) fn signature<'a>(row: &'a MemberRow<'a>) -> Signature<'a>
    ensures { seen_signature result ≡ seen_row (kept_row row.now) }
{
    Signature {
        place: row.at.member,
        kind: kind_of(row.member),
        name: name_of(row.member),
        params: row.params.as_slice(),
    }
}

/// A method or a constructor by what its namesakes are compared with it by.
pub(crate) fn declaration<'a>(row: &'a MemberRow<'a>) -> Declaration<'a>
    ensures { seen_declaration result ≡ seen_declared (kept_row row.now) }
{
    Declaration {
        place: row.at.member,
        name: name_of(row.member),
        params: row.params.as_slice(),
        result: &row.ty,
        is_static: row.is_static,
    }
}

/// What a member is.
fn kind_of(member: &Member) -> MemberKind
    ensures { signature_kind result ≡ kind_of member.now }
{
    match member {
        Member::Field(_) => MemberKind::Field,
        Member::Method(_) => MemberKind::Method,
        Member::Ctor(_) => MemberKind::Constructor,
    }
}

/// Whether a member is of this kind.
pub(crate) fn is_kind(row: &MemberRow<'_>, kind: MemberKind) -> bool
    ensures { result ≡ is_kind (signature_kind kind) (kept_row row.now) }
{
    kind_of(row.member) == kind
}

/// The bytes of its name; none of a constructor.
fn name_of(member: &Member) -> &[u8]
    ensures { result.now ≡ name_of member.now }
{
    match member {
        Member::Field(field) => field.name.bytes(),
        Member::Method(method) => method.name.bytes(),
        Member::Ctor(_) => &[],
    }
}

/// Where it begins in its file, in bytes.
pub(crate) fn place_of(member: &Member) -> u32
    ensures { result ≡ place_of_member member.now }
{
    match member {
        Member::Field(field) => field.at,
        Member::Method(method) => method.at,
        Member::Ctor(ctor) => ctor.at,
    }
}
