//! Identities by example.
ghost use Rattle.std.specs.Prelude.{◌≡◌};

use mol_base::{Id, Tag};

/// The identity of this number and this tag, or of a base where the text is no tag.
pub fn id_of(tag: &str, num: u32) -> Id
    ensures { result.num ≡ num }
{
    Id {
        tag: Tag::parse(tag.as_bytes()).unwrap_or(Tag::base()),
        num,
    }
}
