//! Counts, and words that are a number or an identity.
ghost use Rattle.std.specs.Prelude.{◌≡◌, ◌<◌, ◌^◌, ◌-◌, min, option_map};
ghost use Rattle.mol_base.specs.Spelled.{id_of};
ghost use Rattle.mol_log_words.specs.Words as spec;

use crate::bounds::Bounds;
use mol_base::Id;

fn all_digits(word: &[u8]) -> bool
    ensures { result ≡ spec.all_digits word.now }
{
    word.iter().all(|byte| byte.is_ascii_digit())
}

/// Whether the word is decimal digits without a leading zero.
fn is_count(word: &[u8]) -> bool
    ensures { result ≡ spec.is_count word.now }
{
    match word {
        [] => false,
        [only] => only.is_ascii_digit(),
        [first, rest @ ..] => b'1' <= *first && *first <= b'9' && all_digits(rest),
    }
}

/// The number that the word spells in decimal digits without a leading zero, or the greatest `u64` where it
/// is greater.
#[tactic(auto, unfolding(crate::specs::Words::counts))]
pub fn counts(word: &[u8]) -> Option<u64>
    ensures { result ≡ option_map (λ n. min n (2 ^ 64 - 1)) (spec.counts word.now) }
{
    if !is_count(word) {
        return None;
    }
    match std::str::from_utf8(word) {
        Ok(digits) => Some(digits.parse::<u64>().unwrap_or(u64::MAX)),
        Err(_) => None,
    }
}

/// Whether a count is within the bounds.
fn within(bounds: Bounds, count: u64) -> bool
    ensures { result ≡ spec.within bounds count }
{
    match bounds {
        Bounds::Few => count <= 255,
        Bounds::Sizes => 0 < count && count <= 255,
        Bounds::Positive => 0 < count,
        Bounds::Any => true,
    }
}

/// The same, and more than 0 only where `deeper` holds.
fn count_fits(bounds: Bounds, deeper: bool, count: u64) -> bool
    ensures { result ≡ spec.count_fits bounds deeper count }
{
    within(bounds, count) && (count == 0 || deeper)
}

/// A count within the bounds, cut off at the greatest `u64`; more than 0 only where `deeper` holds.
pub fn count_of(bounds: Bounds, deeper: bool, word: &[u8]) -> Option<u64>
    ensures { result ≡ option_map (λ n. min n (2 ^ 64 - 1)) (spec.count_of bounds deeper word.now) }
{
    match counts(word) {
        Some(count) => {
            if count_fits(bounds, deeper, count) {
                Some(count)
            } else {
                None
            }
        }
        None => None,
    }
}

/// A count of arguments: at most 255; more than 0 only where `deeper` holds.
pub fn few_of(deeper: bool, word: &[u8]) -> Option<u32>
    ensures { result ≡ spec.count_of Bounds.Few deeper word.now }
{
    match count_of(Bounds::Few, deeper, word) {
        Some(count) => {
            let few = count as u32;
            Some(few)
        }
        None => None,
    }
}

/// Whether an array of `sizes` sizes and so many pairs of empty brackets has no more than 255 dimensions.
fn pairs_fit(sizes: usize, pairs: u64) -> bool
    ensures { result ≡ spec.pairs_fit sizes pairs }
{
    (sizes as u64).saturating_add(pairs) <= 255
}

/// How many pairs of empty brackets follow `sizes` sizes: no more than 255 dimensions together.
pub fn pairs_of(sizes: usize, word: &[u8]) -> Option<u32>
    ensures { result ≡ spec.pairs_of sizes word.now }
{
    match counts(word) {
        Some(count) => {
            if pairs_fit(sizes, count) {
                let pairs = count as u32;
                Some(pairs)
            } else {
                None
            }
        }
        None => None,
    }
}

/// The identity that the word spells.
pub fn id_of_word(word: &[u8]) -> Option<Id>
    ensures { result ≡ id_of word.now }
{
    Id::parse(word)
}
