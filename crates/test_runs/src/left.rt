//! What a run leaves.
use crate::escapes::push_text;
use crate::running::run_shown;
use mol_base::{File, List, OutOfMemory, Text};
use mol_outside::{Files, MemFiles};
use std::alloc::Global;

/// The calls that fail in a run, by their numbers from 1, and the room for what is written.
#[derive(Clone, Copy)]
pub struct Failing {
    pub call: u64,
    pub put: u64,
    pub room: usize,
}

impl Failing {
    /// No call fails.
    pub const NONE: Failing = Failing {
        call: 0,
        put: 0,
        room: 100_000,
    };
}

/// What a run of these words over these files leaves.
pub fn run_over(
    alloc: Global,
    files: &List<File>,
    failing: Failing,
    words: &str,
) -> Result<String, OutOfMemory> {
    let calls = List::from_slice(alloc, &[failing.call])?;
    let mut store = MemFiles::new(alloc, files, &calls, failing.room)?;
    let mut shown = run_shown(alloc, words, &mut store, failing.put)?;
    push_changes(alloc, &mut shown, files, &store)?;
    Ok(shown)
}

/// What a run of these words over these files leaves, after so many writes of other files: its status and what it prints.
pub fn run_after(
    alloc: Global,
    files: &List<File>,
    writes: u32,
    words: &str,
) -> Result<String, OutOfMemory> {
    let none: List<u64> = List::new(alloc);
    let mut store = MemFiles::new(alloc, files, &none, Failing::NONE.room)?;
    write_others(alloc, &mut store, writes)?;
    run_shown(alloc, words, &mut store, Failing::NONE.put)
}

/// Writes so many files beside those that a run looks at, or as many as there is place for.
fn write_others(alloc: Global, store: &mut MemFiles, count: u32) -> Result<(), OutOfMemory> {
    for number in 0..count {
        let path = format!(in alloc; "W/{number}")?;
        let path = Text::from_str(alloc, path.as_str())?;
        if store.write(&path, b"").is_err() {
            return Ok(());
        }
    }
    Ok(())
}

/// Adds a line for each file of a store that is none of these: its path and its bytes.
fn push_changes(
    alloc: Global,
    shown: &mut String,
    files: &List<File>,
    store: &MemFiles,
) -> Result<(), OutOfMemory> {
    let none: List<u64> = List::new(alloc);
    let before = MemFiles::new(alloc, files, &none, 0)?;
    let mut known = 0;
    for place in 0..store.count() {
        let (path, bytes) = (store.path(place), store.bytes(place));
        if known < before.count() && before.path(known) == path && before.bytes(known) == bytes {
            known += 1;
        } else {
            push_file(alloc, shown, path, bytes)?;
        }
    }
    Ok(())
}

/// Adds the line of a file.
fn push_file(
    alloc: Global,
    shown: &mut String,
    path: &[u8],
    bytes: &[u8],
) -> Result<(), OutOfMemory> {
    push_text(alloc, shown, path)?;
    shown.push(' ')?;
    push_text(alloc, shown, bytes)?;
    shown.push('\n')?;
    Ok(())
}
