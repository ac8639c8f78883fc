//! Tags: the names of logs.
ghost use Rattle.std.specs.Prelude.{◌≡◌, ◌==◌, ◌<◌, ◌≤◌, [], length, not, IfSome, MatchResult};
ghost use Rattle.std.specs.List.{position};
ghost use Rattle.std.proofs.Common.{rules};
ghost use Rattle.std.specs.Cmp.{partial_order_from_own_ties};
ghost use Rattle.std.specs.Cmp.Rules.{comparing, hashing};
ghost use Rattle.std.specs.Cmp.Lexicographic.{slice_cmp, pointwise};
ghost use Rattle.std.specs.Hash as fed;
ghost use Rattle.std.specs.Ordering.{nat_cmp, as_partial_cmp};
ghost use Rattle.mol_base.specs.Tag.{IsTag, IsTagOrBase, is_tag_byte as is_tag_byte_of, padded};
ghost use Rattle.mol_base.specs.TagFault.{IsTagFault};

use crate::TagFault;
use std::cmp::Ordering;
use std::fmt::{self, Debug, Formatter};
use std::hash::{Hash, Hasher};
use std::marker::Model;

/// The greatest number of bytes of a tag.
pub const MAX_TAG: usize = 32;

/// The name of a log: 1 to 32 bytes of a-z, 0-9 and `-`. The tag of a base has no byte. Contracts see
/// the list of the bytes.
#[derive(Clone, Copy)]
pub struct Tag {
    bytes: [u8; MAX_TAG],
    len: u8,
}

impl Model for Tag {
    ghost use Rattle.std.specs.Prelude.{List, ℕ, take, length};
    ghost use Rattle.std.specs.Coded.{coded_list, coded_ℕ};
    ghost use Rattle.mol_base.specs.Tag.{Keeps, padded};

    ghost Value = { List ℕ };

    ghost coded = { coded_list coded_ℕ };

    ghost view = { λ tag. take tag.len tag.bytes };

    ghost invariant = { λ tag. Keeps tag.bytes tag.len };

    ghost inverse = { λ bytes. record { bytes = padded bytes; len = length bytes } };

    ghost use Rattle.std.proofs.Common.{sym};
    ghost use Rattle.mol_base.specs.Tag.{length-Keeps};

    ghost inverse_ok = { λ tag keeps. λ i. record { bytes = sym keeps.zeros i; len = length-Keeps tag.bytes tag.len keeps i } };
}

impl Tag {
    /// The tag of a base, which has no byte. It takes no memory.
    pub const fn base() -> Tag
        ensures { result ≡ [] }
    {
        Tag {
            bytes: [0; MAX_TAG],
            len: 0,
        }
    }

    /// The tag that these bytes are. It takes no memory.
    ///
    /// Refuses, in this order, no bytes at all, more than 32, and a byte that is none of a-z, 0-9 and
    /// `-`, the first one by its place.
    pub fn parse(bytes: &[u8]) -> Result<Tag, TagFault>
        ensures { MatchResult result (λ tag. (tag ≡ bytes.now) × IsTag bytes.now) (IsTagFault bytes.now) }
    {
        if bytes.is_empty() {
            return Err(TagFault::Empty);
        }
        if bytes.len() > MAX_TAG {
            return Err(TagFault::TooLong);
        }
        match first_bad(bytes) {
            Some(at) => Err(TagFault::BadByte(at as u32)),
            None => Ok(Tag {
                bytes: with_zeros(bytes),
                len: bytes.len() as u8,
            }),
        }
    }

    /// The bytes: none for a base, else 1 to 32. It takes no memory.
    pub fn bytes(&self) -> &[u8]
        ensures bytes { result.now ≡ self.now }
        ensures tag { IsTagOrBase self.now }
    {
        &self.bytes[..self.len as usize]
    }
}

impl Tag {
    /// The bytes as a `str`. It takes no memory.
    pub fn as_str(&self) -> &str
        ensures { result.now ≡ self.now }
    {
        match std::str::from_utf8(self.bytes()) {
            Ok(chars) => chars,
            Err(_) => unreachable!(),
        }
    }
}

/// The place of the first byte that a tag can't have.
fn first_bad(bytes: &[u8]) -> Option<usize>
    ensures place { result ≡ position (λ byte. not (is_tag_byte_of byte)) bytes.now }
    ensures within { IfSome result (λ at. at < length bytes.now) }
{
    bytes.iter().position(|byte| !is_tag_byte(*byte))
}

/// The bytes and zeros after them.
fn with_zeros(bytes: &[u8]) -> [u8; MAX_TAG]
    requires { length bytes.now ≤ 32 }
    ensures { result ≡ padded bytes.now }
{
    let mut kept = [0; MAX_TAG];
    kept[..bytes.len()].copy_from_slice(bytes);
    kept
}

/// Whether a tag may have this byte.
fn is_tag_byte(byte: u8) -> bool
    ensures { result ≡ is_tag_byte_of byte }
{
    matches!(byte, b'a'..=b'z' | b'0'..=b'9' | b'-')
}

impl PartialEq for Tag {
    ghost eq = { pointwise ◌==◌ };

    ghost laws = { Prim.search (comparing, rules) };

    fn eq(&self, other: &Tag) -> bool {
        self.bytes() == other.bytes()
    }
}

impl Eq for Tag {
    ghost laws = { Prim.search (comparing, rules) };
}

/// Tags are ordered by their bytes.
impl Ord for Tag {
    ghost cmp = { slice_cmp nat_cmp };

    ghost total = { Prim.search (comparing, rules) };

    ghost matches_partial_cmp = { Prim.search (comparing, rules) };

    ghost matches_eq = { Prim.search (comparing, rules) };

    fn cmp(&self, other: &Tag) -> Ordering {
        // those of a base, as most are, have no bytes to compare
        if self.len == 0 && other.len == 0 {
            return Ordering::Equal;
        }
        self.bytes().cmp(other.bytes())
    }
}

impl PartialOrd for Tag {
    ghost partial_cmp = { as_partial_cmp (slice_cmp nat_cmp) };

    ghost laws = { partial_order_from_own_ties (Prim.search (comparing, rules)) (Prim.search (comparing, rules)) };

    fn partial_cmp(&self, other: &Tag) -> Option<Ordering> {
        Some(self.cmp(other))
    }
}

impl Hash for Tag {
    ghost hash_input = { fed.slice fed.u8 };

    ghost respects_eq = { Prim.search (hashing, rules) };

    fn hash<H: Hasher>(&self, state: &mut H) {
        self.bytes().hash(state);
    }
}

impl Debug for Tag {
    fn fmt<W: fmt::Write>(&self, f: &mut Formatter<W>) -> fmt::Result {
        f.write_str(self.as_str())
    }
}
