//! Modifiers: what each may stand before, and the order in which they are printed.
ghost use Rattle.std.specs.Prelude.{◌≡◌, ◌≤◌, ◌↔◌, ◌&&◌, IsTrue, nat_le, filter, length, map};
ghost use Rattle.std.specs.List.{list_all, list_any};
ghost use Rattle.std.specs.Cmp.Lexicographic.{pointwise};
ghost use Rattle.std.specs.Str.{bytes_eq};
ghost use Rattle.mol_base.specs.Modifiers as spec;

use crate::Text;
use crate::among::is_among;

/// What modifiers stand before.
#[derive(Clone, Copy, Debug, PartialEq, Eq)]
pub enum Modified {
    Class,
    Field,
    /// A method with a block.
    Method,
    /// A method without a block.
    AbstractMethod,
    /// A method with a block or without, where `static` and `abstract` are left out and kept elsewhere.
    KeptMethod,
    Constructor,
}

const ALL_WORDS: [&[u8]; 9] = [
    b"@Override",
    b"public",
    b"protected",
    b"private",
    b"abstract",
    b"static",
    b"final",
    b"transient",
    b"volatile",
];

const CLASS_WORDS: [&[u8]; 3] = [b"public", b"abstract", b"final"];

const FIELD_WORDS: [&[u8]; 7] = [
    b"public",
    b"protected",
    b"private",
    b"static",
    b"final",
    b"transient",
    b"volatile",
];

const METHOD_WORDS: [&[u8]; 6] = [
    b"@Override",
    b"public",
    b"protected",
    b"private",
    b"static",
    b"final",
];

const ABSTRACT_WORDS: [&[u8]; 6] = [
    b"@Override",
    b"public",
    b"protected",
    b"private",
    b"abstract",
    b"final",
];

const KEPT_WORDS: [&[u8]; 5] = [b"@Override", b"public", b"protected", b"private", b"final"];

const CONSTRUCTOR_WORDS: [&[u8]; 3] = [b"public", b"protected", b"private"];

impl Modified {
    /// Whether these modifiers may stand before this, in any order: each is one of those that the kind
    /// allows (JLS 8.1.1, 8.3.1, 8.4.3, 8.8.3), none stands twice, at most one of `public`, `protected`
    /// and `private` is there, and `abstract` is before a method without a block. It takes no memory; the
    /// time is linear in the words.
    pub fn allows(self, words: &[Text]) -> bool
        ensures { IsTrue result ↔ spec.AreAllowed self words.now }
    {
        match self {
            Modified::Class => all_allowed(&CLASS_WORDS, words),
            Modified::Field => all_allowed(&FIELD_WORDS, words),
            Modified::Method => all_allowed(&METHOD_WORDS, words),
            Modified::AbstractMethod => {
                all_allowed(&ABSTRACT_WORDS, words) && has(words, b"abstract")
            },
            Modified::KeptMethod => all_allowed(&KEPT_WORDS, words),
            Modified::Constructor => all_allowed(&CONSTRUCTOR_WORDS, words),
        }
    }
}

/// Whether the modifiers stand in the order in which they are printed: `@Override`, `public`, `protected`,
/// `private`, `abstract`, `static`, `final`, `transient`, `volatile`, each at most once and no other word.
/// It takes no memory; the time is linear in the words.
pub fn are_in_order(words: &[Text]) -> bool
    ensures { IsTrue result ↔ spec.AreInOrder words.now }
{
    is_selection(&ALL_WORDS, words)
}

/// Whether the words are those of `all` that stand among them, in the order of `all`.
fn is_selection(all: &[&[u8]], words: &[Text]) -> bool
    ensures { result ≡ pointwise bytes_eq (filter (λ word. list_any (bytes_eq word) words.now) (map (λ word. word.now) all.now)) words.now }
{
    let mut all = all;
    let mut rest = words;
    while let [word, others @ ..] = all {
        if has(words, word) {
            match rest {
                [first, behind @ ..] if *word == first.bytes() => rest = behind,
                _ => return false,
            }
        }
        all = others;
    }
    rest.is_empty()
}

/// Whether each word is one of the allowed ones, none of these stands twice, and at most one of the access
/// words is there.
fn all_allowed(allowed: &[&[u8]], words: &[Text]) -> bool
    ensures { result ≡ (list_all (λ word. list_any (λ one. bytes_eq word one.now) allowed.now) words.now
        && (list_all (λ word. nat_le (spec.times words.now word.now) 1) allowed.now && spec.has_one_access words.now)) }
{
    all_known(allowed, words) && none_twice(allowed, words) && has_one_access(words)
}

/// Whether each word is one of the allowed ones.
fn all_known(allowed: &[&[u8]], words: &[Text]) -> bool
    ensures { result ≡ list_all (λ word. list_any (λ one. bytes_eq word one.now) allowed.now) words.now }
{
    words.iter().all(|word| is_among(allowed, word.bytes()))
}

/// Whether none of the allowed ones stands twice among the words.
fn none_twice(allowed: &[&[u8]], words: &[Text]) -> bool
    ensures { result ≡ list_all (λ word. nat_le (spec.times words.now word.now) 1) allowed.now }
{
    allowed.iter().all(|word| times(words, word) <= 1)
}

/// Whether at most one of the access words stands among the words.
fn has_one_access(words: &[Text]) -> bool
    ensures { result ≡ spec.has_one_access words.now }
{
    times(words, b"public") + times(words, b"protected") + times(words, b"private") <= 1
}

/// How often a word stands among the words.
fn times(words: &[Text], word: &[u8]) -> usize
    ensures times { result ≡ spec.times words.now word.now }
    ensures within { result ≤ length words.now }
{
    words.iter().filter(|each| word == each.bytes()).count()
}

/// Whether a word stands among the words.
fn has(words: &[Text], word: &[u8]) -> bool
    ensures { result ≡ list_any (bytes_eq word.now) words.now }
{
    words.iter().any(|each| word == each.bytes())
}
