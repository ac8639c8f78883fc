//! A text, seen as its bytes.
ghost use Rattle.std.specs.Prelude.{◌≡◌, ◌≢◌, ◌<◌, ◌≤◌, ◌^◌, [], length, IfOk, IfErr, string_bytes, IsUtf8, ◌==◌};
ghost use Rattle.std.specs.Str.Lossy.{utf8_valid_len};
ghost use Rattle.std.proofs.Common.{rules};
ghost use Rattle.std.specs.Cmp.{partial_order_from_own_ties};
ghost use Rattle.std.specs.Cmp.Rules.{comparing, hashing};
ghost use Rattle.std.specs.Cmp.Lexicographic.{slice_cmp, pointwise};
ghost use Rattle.std.specs.Hash as fed;
ghost use Rattle.std.specs.Ordering.{nat_cmp, as_partial_cmp};

use crate::OutOfMemory;
use std::alloc::{AllocError, Global};
use std::cmp::Ordering;
use std::fmt::{self, Debug, Formatter};
use std::hash::{Hash, Hasher};
use std::marker::Model;

/// The most bytes that a text holds in place.
const MOST_IN_PLACE: usize = 15;

/// Bytes that are UTF-8. Contracts see the list of the bytes.
///
/// A text made of a `str` of at most 15 bytes, as most names are, takes no memory besides itself: it is `short`, and nothing is
/// `long`. One made of a `String` stays that `String`, of whatever length: it is `long`, and `short` is not used.
#[derive(Drop)]
pub struct Text {
    short: [u8; MOST_IN_PLACE],
    /// How many bytes of `short` are the text's, from the first on.
    len: u8,
    long: String,
}

impl Model for Text {
    ghost use Rattle.std.specs.Prelude.{List, ℕ, string_bytes};
    ghost use Rattle.std.specs.Coded.{coded_list, coded_ℕ};
    ghost use Rattle.mol_base.specs.Texts.{IsHeld, held};

    ghost Value = { List ℕ };

    ghost coded = { coded_list coded_ℕ };

    ghost view = { λ text. held text.short text.len (string_bytes text.long) };

    ghost invariant = { λ text. IsHeld text.short text.len (string_bytes text.long) };
}

/// Why bytes are no text.
#[derive(Clone, Copy, Debug, PartialEq, Eq, thiserror::Error)]
pub enum TextFault {
    /// The bytes are not UTF-8. The ill-formed sequence of least place begins at this byte.
    #[error("not UTF-8 at byte {0}")]
    NotUtf8(u32),
    #[error("out of memory")]
    OutOfMemory,
}

impl From<AllocError> for TextFault {
    ghost use Rattle.std.specs.Prelude.{◌≡◌};
    ghost use Rattle.mol_base.specs.declared.text.TextFault.TheVariants.{OutOfMemory as Wants};

    ghost from_gives = { λ _ fault. fault ≡ Wants };

    fn from(_: AllocError) -> TextFault {
        TextFault::OutOfMemory
    }
}

impl Text {
    /// The text of these bytes, at most 4,294,967,295 of them.
    ///
    /// Refuses bytes that are not UTF-8 (RFC 3629) and names the first byte of the first ill-formed
    /// sequence.
    pub fn from_bytes(alloc: Global, bytes: &[u8]) -> Result<Text, TextFault>
        requires { length bytes.now < 2 ^ 32 }
        ensures ok { IfOk result (λ text. (text ≡ bytes.now) × IsUtf8 text) }
        ensures bad { IfErr result (λ fault. fault ≢ TextFault.OutOfMemory →
            ¬ (IsUtf8 bytes.now) × (fault ≡ TextFault.NotUtf8 (utf8_valid_len bytes.now))) }
    {
        match std::str::from_utf8(bytes) {
            Ok(chars) => match Text::from_str(alloc, chars) {
                Ok(text) => Ok(text),
                Err(OutOfMemory) => Err(TextFault::OutOfMemory),
            },
            Err(fault) => Err(TextFault::NotUtf8(fault.valid_up_to() as u32)),
        }
    }

    /// A text that equals a `str`. `Err` is want of memory.
    pub fn from_str(alloc: Global, chars: &str) -> Result<Text, OutOfMemory>
        ensures { IfOk result (λ text. text ≡ chars.now) }
    {
        if chars.len() > MOST_IN_PLACE {
            return Ok(Text::from_string(String::from_str(alloc, chars)?));
        }
        Ok(Text::in_place(alloc, chars))
    }

    /// The text of a `String`, which goes in whole. It takes no memory.
    pub fn from_string(chars: String) -> Text
        ensures { result ≡ string_bytes chars }
    {
        Text {
            short: [0; MOST_IN_PLACE],
            len: 0,
            long: chars,
        }
    }

    /// A text that equals a `str` of few bytes, held in place.
    fn in_place(alloc: Global, chars: &str) -> Text
        requires { length chars.now ≤ 15 }
        ensures { result ≡ chars.now }
    {
        let mut short = [0; MOST_IN_PLACE];
        short[..chars.len()].copy_from_slice(chars.as_bytes());
        Text {
            short,
            len: chars.len() as u8,
            long: String::new(alloc),
        }
    }

    /// The text without bytes. It takes no memory.
    pub fn empty(alloc: Global) -> Text
        ensures { result ≡ [] }
    {
        Text::from_string(String::new(alloc))
    }

    /// The bytes. It takes no memory.
    pub fn bytes(&self) -> &[u8]
        ensures bytes { result.now ≡ self.now }
        ensures utf8 { IsUtf8 self.now }
    {
        if self.long.is_empty() {
            &self.short[..self.len as usize]
        } else {
            self.long.as_bytes()
        }
    }

    /// The bytes as a `str`. It takes no memory.
    pub fn as_str(&self) -> &str
        ensures { result.now ≡ self.now }
    {
        unsafe { std::str::from_utf8_unchecked(self.bytes()) }
    }

    /// A text that equals this one.
    pub fn copy(&self, alloc: Global) -> Result<Text, OutOfMemory>
        ensures { IfOk result (λ copy. copy ≡ self.now) }
    {
        if self.long.is_empty() {
            return Ok(Text {
                short: self.short,
                len: self.len,
                long: String::new(alloc),
            });
        }
        Text::from_str(alloc, self.as_str())
    }
}

impl Debug for Text {
    fn fmt<W: fmt::Write>(&self, f: &mut Formatter<W>) -> fmt::Result {
        f.write_str(self.as_str())
    }
}

impl PartialEq for Text {
    ghost eq = { pointwise ◌==◌ };

    ghost laws = { Prim.search (comparing, rules) };

    fn eq(&self, other: &Text) -> bool {
        self.bytes() == other.bytes()
    }
}

impl Eq for Text {
    ghost laws = { Prim.search (comparing, rules) };
}

/// Texts are ordered by their bytes.
impl Ord for Text {
    ghost cmp = { slice_cmp nat_cmp };

    ghost total = { Prim.search (comparing, rules) };

    ghost matches_partial_cmp = { Prim.search (comparing, rules) };

    ghost matches_eq = { Prim.search (comparing, rules) };

    fn cmp(&self, other: &Text) -> Ordering {
        self.bytes().cmp(other.bytes())
    }
}

impl PartialOrd for Text {
    ghost partial_cmp = { as_partial_cmp (slice_cmp nat_cmp) };

    ghost laws = { partial_order_from_own_ties (Prim.search (comparing, rules)) (Prim.search (comparing, rules)) };

    fn partial_cmp(&self, other: &Text) -> Option<Ordering> {
        Some(self.cmp(other))
    }
}

impl Hash for Text {
    ghost hash_input = { fed.slice fed.u8 };

    ghost respects_eq = { Prim.search (hashing, rules) };

    fn hash<H: Hasher>(&self, state: &mut H) {
        self.bytes().hash(state);
    }
}
