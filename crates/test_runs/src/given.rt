//! What a run is given: its words and its files.
use mol_base::{File, List, OutOfMemory, Text};
use std::alloc::Global;

/// The words that spaces set apart. Two apostrophes are an empty word.
pub fn words_of(alloc: Global, line: &str) -> Result<List<Text>, OutOfMemory> {
    let mut words = List::new(alloc);
    for word in line.split(' ') {
        if !word.is_empty() {
            add_word(alloc, &mut words, word)?;
        }
    }
    Ok(words)
}

/// Adds a word as it is given.
fn add_word(alloc: Global, words: &mut List<Text>, word: &str) -> Result<(), OutOfMemory> {
    let word = if word == "''" { "" } else { word };
    words.add(Text::from_str(alloc, word)?)
}

/// The file of this path and these bytes.
pub fn file(alloc: Global, path: &str, bytes: &[u8]) -> Result<File, OutOfMemory> {
    Ok(File {
        path: Text::from_str(alloc, path)?,
        bytes: List::from_slice(alloc, bytes)?,
    })
}
