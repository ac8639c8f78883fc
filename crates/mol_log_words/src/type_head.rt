//! The words with which a type begins.
ghost use Rattle.std.specs.Prelude.{◌≡◌};
ghost use Rattle.mol_log_words.specs.TypeHeads as spec;

use crate::type_role::TypeRole;

/// The form of a type.
#[derive(Clone, Copy, Debug, PartialEq, Eq)]
pub enum TypeHead {
    Boolean,
    Byte,
    Short,
    Char,
    Int,
    Long,
    Void,
    Class,
    Imported,
    Written,
    Array,
}

/// The form that the word names.
#[tactic(auto, unfolding(crate::specs::TypeHeads::any_type_head))]
fn any_type_head(word: &[u8]) -> Option<TypeHead>
    ensures { result ≡ spec.any_type_head word.now }
{
    if word == b"boolean".as_slice() {
        Some(TypeHead::Boolean)
    } else if word == b"byte".as_slice() {
        Some(TypeHead::Byte)
    } else if word == b"short".as_slice() {
        Some(TypeHead::Short)
    } else if word == b"char".as_slice() {
        Some(TypeHead::Char)
    } else if word == b"int".as_slice() {
        Some(TypeHead::Int)
    } else if word == b"long".as_slice() {
        Some(TypeHead::Long)
    } else if word == b"void".as_slice() {
        Some(TypeHead::Void)
    } else if word == b"class".as_slice() {
        Some(TypeHead::Class)
    } else if word == b"imported".as_slice() {
        Some(TypeHead::Imported)
    } else if word == b"written".as_slice() {
        Some(TypeHead::Written)
    } else if word == b"array".as_slice() {
        Some(TypeHead::Array)
    } else {
        None
    }
}

/// Whether a type of this form may stand here.
fn allows_type(role: TypeRole, head: TypeHead) -> bool
    ensures { result ≡ spec.allows_type role head }
{
    match role {
        TypeRole::Value => !matches!(head, TypeHead::Void),
        TypeRole::Result => true,
        TypeRole::Super => {
            matches!(
                head,
                TypeHead::Class | TypeHead::Imported | TypeHead::Written
            )
        }
        TypeRole::Outside => matches!(head, TypeHead::Imported | TypeHead::Written),
        TypeRole::Item => !matches!(head, TypeHead::Void | TypeHead::Array),
        TypeRole::Array => matches!(head, TypeHead::Array),
    }
}

/// Whether there is a type of this form here; an array only where a dimension is left.
fn type_fits(role: TypeRole, deeper: bool, head: TypeHead) -> bool
    ensures { result ≡ spec.type_fits role deeper head }
{
    allows_type(role, head) && (deeper || !matches!(head, TypeHead::Array))
}

/// The form that the word names, if a type of that form may stand here.
pub fn type_head_of(role: TypeRole, deeper: bool, word: &[u8]) -> Option<TypeHead>
    ensures { result ≡ spec.type_head_of role deeper word.now }
{
    match any_type_head(word) {
        Some(head) => {
            if type_fits(role, deeper, head) {
                Some(head)
            } else {
                None
            }
        }
        None => None,
    }
}
