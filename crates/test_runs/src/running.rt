//! A run, and what it prints.
use crate::given::words_of;
use mol_base::{List, OutOfMemory};
use mol_outside::{MemFiles, MemSink};
use mol_top::run;
use std::alloc::Global;

/// The room for what is printed, in bytes.
const PRINTED: usize = 100_000;

/// The exit status of a run of these words, how many files are there then, and what is printed. The put of this number fails, counted
/// from 1 (0 for none).
pub fn run_shown(
    alloc: Global,
    words: &str,
    store: &mut MemFiles,
    put: u64,
) -> Result<String, OutOfMemory> {
    let puts = List::from_slice(alloc, &[put])?;
    let mut sink = MemSink::new(alloc, &puts, PRINTED)?;
    let code = code_of_run(alloc, words, store, &mut sink)?;
    let text = str::from_utf8(sink.bytes()).unwrap_or("no text\n");
    Ok(format!(in alloc; "status {code}, files {}\n{text}", store.count())?)
}

/// The exit status of a run of these words.
fn code_of_run(
    alloc: Global,
    words: &str,
    store: &mut MemFiles,
    sink: &mut MemSink,
) -> Result<u8, OutOfMemory> {
    let words = words_of(alloc, words)?;
    Ok(run(alloc, &words, store, sink).code())
}
