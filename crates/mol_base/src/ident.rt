//! Identities of entities and stamps of log entries.
ghost use Rattle.std.specs.Prelude.{◌≡◌, IfOk, IfSome, IfNone, Some};
ghost use Rattle.std.proofs.Common.{rules};
ghost use Rattle.mol_base.specs.Tag.{IsTag, IsTagOrBase};
ghost use Rattle.std.specs.Cmp.{partial_order_from_own_ties};
ghost use Rattle.std.specs.Cmp.Rules.{comparing};
ghost use Rattle.std.specs.Ordering.{as_partial_cmp};

use crate::number::parse_number;
use crate::split::split_at_byte;
use crate::{OutOfMemory, Tag, Text};
use std::alloc::Global;
use std::cmp::Ordering;

/// What names a class, method, declaration, field or parameter: the tag of the log that added it, or
/// the tag of the base, and a number from 1 on.
#[derive(Clone, Copy, Debug, PartialEq, Eq, Hash)]
pub struct Id {
    pub tag: Tag,
    pub num: u32,
}

/// What names an entry of a log: the log's tag and a number from 1 on.
#[derive(Clone, Copy, Debug, PartialEq, Eq, Hash)]
pub struct Stamp {
    pub tag: Tag,
    pub seq: u32,
}

impl Id {
    ghost use Rattle.mol_base.specs.Identity.{IsId, spelled_id};

    /// The identity that the bytes spell: a tag or nothing, `:`, and a number from 1 to 4,294,967,295
    /// without a leading zero. `None` exactly where they spell none. It takes no memory.
    pub fn parse(bytes: &[u8]) -> Option<Id>
        ensures spells { IfSome result (λ id. IsId id × (spelled_id id ≡ bytes.now)) }
        ensures only { (id : Id) → IsId id → spelled_id id ≡ bytes.now → result ≡ Some id }
    {
        let (tag, num) = split_at_byte(bytes, b':')?;
        let tag = tag_or_base(tag)?;
        let num = parse_number(num)?;
        Some(Id { tag, num })
    }

    /// The tag, `:` and the number in decimal. `Err` is want of memory.
    pub fn write(&self, alloc: Global) -> Result<Text, OutOfMemory>
        ensures { IfOk result (λ text. text ≡ spelled_id self.now) }
    {
        Ok(Text::from_string(format!(in alloc; "{}:{}", self.tag.as_str(), self.num)?))
    }
}

impl Stamp {
    ghost use Rattle.mol_base.specs.Identity.{IsStamp, spelled_stamp};

    /// The stamp that the bytes spell: a tag, `@`, and a number from 1 to 4,294,967,295 without a
    /// leading zero. `None` exactly where they spell none. It takes no memory.
    pub fn parse(bytes: &[u8]) -> Option<Stamp>
        ensures spells { IfSome result (λ stamp. IsStamp stamp × (spelled_stamp stamp ≡ bytes.now)) }
        ensures only { (stamp : Stamp) → IsStamp stamp → spelled_stamp stamp ≡ bytes.now → result ≡ Some stamp }
    {
        let (tag, seq) = split_at_byte(bytes, b'@')?;
        let tag = tag_of(tag)?;
        let seq = parse_number(seq)?;
        Some(Stamp { tag, seq })
    }

    /// The tag, `@` and the number in decimal. `Err` is want of memory.
    pub fn write(&self, alloc: Global) -> Result<Text, OutOfMemory>
        ensures { IfOk result (λ text. text ≡ spelled_stamp self.now) }
    {
        Ok(Text::from_string(format!(in alloc; "{}@{}", self.tag.as_str(), self.seq)?))
    }
}

/// The tag that the bytes are, or that of a base where there are none.
fn tag_or_base(bytes: &[u8]) -> Option<Tag>
    ensures some { IfSome result (λ tag. (tag ≡ bytes.now) × IsTagOrBase bytes.now) }
    ensures none { IfNone result (¬ (IsTagOrBase bytes.now)) }
{
    if bytes.is_empty() {
        Some(Tag::base())
    } else {
        tag_of(bytes)
    }
}

/// The tag that the bytes are.
fn tag_of(bytes: &[u8]) -> Option<Tag>
    ensures some { IfSome result (λ tag. (tag ≡ bytes.now) × IsTag bytes.now) }
    ensures none { IfNone result (¬ (IsTag bytes.now)) }
{
    match Tag::parse(bytes) {
        Ok(tag) => Some(tag),
        Err(_) => None,
    }
}

/// Identities are ordered by tag, then by number.
impl Ord for Id {
    ghost use Rattle.mol_base.specs.Order.{id_cmp};

    ghost cmp = { id_cmp };

    ghost total = { Prim.search (comparing, rules) depth 9 };

    ghost matches_partial_cmp = { Prim.search (comparing, rules) };

    ghost matches_eq = { Prim.search (comparing, rules) depth 9 };

    fn cmp(&self, other: &Id) -> Ordering {
        self.tag.cmp(&other.tag).then(self.num.cmp(&other.num))
    }
}

impl PartialOrd for Id {
    ghost use Rattle.mol_base.specs.Order.{id_cmp};

    ghost partial_cmp = { as_partial_cmp id_cmp };

    ghost laws = { partial_order_from_own_ties (Prim.search (comparing, rules) depth 9) (Prim.search (comparing, rules) depth 9) };

    fn partial_cmp(&self, other: &Id) -> Option<Ordering> {
        Some(self.cmp(other))
    }
}

/// Stamps are ordered by tag, then by number.
impl Ord for Stamp {
    ghost use Rattle.mol_base.specs.Order.{stamp_cmp};

    ghost cmp = { stamp_cmp };

    ghost total = { Prim.search (comparing, rules) depth 9 };

    ghost matches_partial_cmp = { Prim.search (comparing, rules) };

    ghost matches_eq = { Prim.search (comparing, rules) depth 9 };

    fn cmp(&self, other: &Stamp) -> Ordering {
        self.tag.cmp(&other.tag).then(self.seq.cmp(&other.seq))
    }
}

impl PartialOrd for Stamp {
    ghost use Rattle.mol_base.specs.Order.{stamp_cmp};

    ghost partial_cmp = { as_partial_cmp stamp_cmp };

    ghost laws = { partial_order_from_own_ties (Prim.search (comparing, rules) depth 9) (Prim.search (comparing, rules) depth 9) };

    fn partial_cmp(&self, other: &Stamp) -> Option<Ordering> {
        Some(self.cmp(other))
    }
}
