//! How values compare: each with each, a word for each of them with `<`, `=` or `>` for each one.
use crate::escapes::bytes_of;
use mol_base::{Id, List, OutOfMemory, Stamp, Text};
use std::alloc::Global;
use std::cmp::Ordering;
use std::hash::{DefaultHasher, Hash, Hasher};

/// How the identities compare that these texts spell.
pub fn identities(alloc: Global, texts: &str) -> Result<String, OutOfMemory> {
    let mut ids = List::new(alloc);
    for text in texts.split(' ') {
        if let Some(id) = Id::parse(text.as_bytes()) {
            ids.add(id)?;
        }
    }
    relations(alloc, ids.items())
}

/// How the stamps compare that these texts spell.
pub fn stamps(alloc: Global, texts: &str) -> Result<String, OutOfMemory> {
    let mut stamps = List::new(alloc);
    for text in texts.split(' ') {
        if let Some(stamp) = Stamp::parse(text.as_bytes()) {
            stamps.add(stamp)?;
        }
    }
    relations(alloc, stamps.items())
}

/// How these texts compare.
pub fn texts(alloc: Global, texts: &str) -> Result<String, OutOfMemory> {
    let mut list = List::new(alloc);
    for text in texts.split(' ') {
        list.add(text_of(alloc, text)?)?;
    }
    relations(alloc, list.items())
}

/// The text that stands here with escapes, or without them where that is none.
fn text_of(alloc: Global, text: &str) -> Result<Text, OutOfMemory> {
    let bytes = bytes_of(alloc, text)?;
    Text::from_str(alloc, str::from_utf8(bytes.as_slice()).unwrap_or(text))
}

fn relations<T: Ord + Hash>(alloc: Global, values: &[T]) -> Result<String, OutOfMemory> {
    let mut shown = String::new(alloc);
    for low in values {
        for high in values {
            shown.push(relation(low, high))?;
        }
        shown.push(' ')?;
    }
    Ok(shown)
}

/// How two values compare, where all comparisons and their hashes say the same.
fn relation<T: Ord + Hash>(low: &T, high: &T) -> char {
    let alike = hash_of(low) == hash_of(high);
    match low.cmp(high) {
        Ordering::Less if low < high && low != high && !alike => '<',
        Ordering::Equal if low == high && alike && low >= high => '=',
        Ordering::Greater if low > high && low != high && !alike => '>',
        _ => '?',
    }
}

fn hash_of<T: Hash>(value: &T) -> u64 {
    let mut state = DefaultHasher::new();
    value.hash(&mut state);
    state.finish()
}
