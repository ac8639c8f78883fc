//! Boxes, lists, texts and limits.
use crate::escapes::{bytes_of, text_of};
use mol_base::{Boxed, List, MAX_ITEMS, MAX_NAME_BYTES, OutOfMemory, Text, TextFault, Which};
use std::alloc::Global;

/// The greatest text, in bytes: places in it are numbers of 32 bits.
const LONGEST: usize = 1 << 30;

const LIMITS: [Which; 7] = [
    Which::Files,
    Which::FileBytes,
    Which::SourceBytes,
    Which::Height,
    Which::Operations,
    Which::LogBytes,
    Which::ScriptBytes,
];

/// The limits, those that no report names last.
pub fn limits(alloc: Global) -> Result<String, OutOfMemory> {
    let mut shown = String::new(alloc);
    for limit in LIMITS {
        let piece = format!(in alloc; "{limit:?} {}, ", limit.most())?;
        shown.push_str(piece.as_str())?;
    }
    let others = format!(in alloc; "{MAX_ITEMS} items, names of {MAX_NAME_BYTES} bytes")?;
    shown.push_str(others.as_str())?;
    Ok(shown)
}

/// The text of these bytes, or why they are none.
pub fn text(alloc: Global, bytes: &str) -> Result<String, OutOfMemory> {
    let bytes = bytes_of(alloc, bytes)?;
    if LONGEST < bytes.len() {
        return Ok(String::from_str(alloc, "too long")?);
    }
    match Text::from_bytes(alloc, bytes.as_slice()) {
        Ok(text) => shown_text(alloc, &text),
        Err(TextFault::OutOfMemory) => Err(OutOfMemory),
        Err(fault) => Ok(format!(in alloc; "{fault:?}")?),
    }
}

fn shown_text(alloc: Global, text: &Text) -> Result<String, OutOfMemory> {
    text_of(alloc, text.bytes())
}

/// The text of these characters, as each of the calls makes it; and the empty one.
pub fn copies(alloc: Global, chars: &str) -> Result<String, OutOfMemory> {
    let text = Text::from_str(alloc, chars)?;
    let copy = text.copy(alloc)?;
    let owned = Text::from_string(String::from_str(alloc, chars)?);
    let empty = Text::empty(alloc);
    Ok(format!(in alloc;
        "{} {} {} \"{}\"",
        text.as_str(),
        copy.as_str(),
        owned.as_str(),
        empty.as_str()
    )?)
}

/// These numbers as a list: a copy from before the last one is added, the list, its items, and a list of these.
pub fn list(alloc: Global, numbers: &str) -> Result<String, OutOfMemory> {
    let (front, last) = numbers.rsplit_once(' ').unwrap_or(("", numbers));
    let mut list = numbers_of(alloc, front)?;
    let copy = list.copy(alloc)?;
    let Ok(()) = list.push(last.parse().unwrap_or(0)) else {
        return Err(OutOfMemory);
    };
    let same = List::from_slice(alloc, list.items())?;
    let items = List::from_vec(list.into_vec());
    Ok(format!(in alloc; "{:?} {:?} {:?}", copy.items(), same.items(), items.items())?)
}

/// These numbers.
fn numbers_of(alloc: Global, numbers: &str) -> Result<List<u32>, OutOfMemory> {
    let mut list = List::new(alloc);
    for number in numbers.split(' ') {
        if let Ok(number) = number.parse() {
            list.add(number)?;
        }
    }
    Ok(list)
}

/// What a box of a number gives, as it lends it and as it hands it out.
pub fn boxed(alloc: Global, number: &str) -> Result<String, OutOfMemory> {
    let number: u32 = number.parse().unwrap_or(0);
    let boxed = Boxed::new(alloc, number)?;
    let lent = *boxed.get();
    Ok(format!(in alloc; "{lent} {}", boxed.into_inner())?)
}
