//! A log from bytes.
ghost use Rattle.std.specs.Prelude.{◌≡◌, ◌≢◌, true, ℕ, List as Items, [], IfOk, IfErr, MatchResult};
ghost use Rattle.mol_base.specs.Spelled.{is_stamp};
ghost use Rattle.mol_base.specs.declared.ident.Stamp.{Stamp};
ghost use Rattle.mol_log.specs.entries.Entries.{SpellsEntry};
ghost use Rattle.mol_log.specs.entries.Trees.{Bad};
ghost use Rattle.mol_log_rows.specs.lines.Lines.{Line, lines_left};
ghost use Rattle.mol_log_rows.specs.rows.NextRow.{StandsOn};
ghost use Rattle.mol_log_rows.specs.rows.RowForms.{is_row};
ghost use Rattle.mol_log.specs.LogLines.{HaveFault, SayEntries};
ghost use Rattle.mol_log.specs.NextEntry.{Stands, IsNextEntry};
ghost use Rattle.mol_log.specs.Reading.{IsLogRead};

use crate::Log;
use crate::entries::{Entry, read_entry};
use mol_base::List;
use mol_log_rows::{Header, LogFault, Recorded, Rows, Start, read_start};
use mol_log_words::BadWord;
use std::alloc::Global;

/// The log that the bytes spell: a line for its header and one for each entry, each of which is a JSON text (RFC 8259) of its
/// object and ends in LF. The time grows with the bytes, and the value of one line at a time is in memory.
///
/// Refuses, in this order, more than 16,777,216 bytes; more than 65,535 lines after the first that end in LF;
/// no bytes at all; and then, line by line, the first variant of `LogFault` that says what the line is.
pub fn read_log(alloc: Global, bytes: &[u8]) -> Result<Log, LogFault>
    ensures { IsLogRead bytes.now result }
{
    let start = read_start(alloc, bytes)?;
    let entries = entries_of(alloc, &start)?;
    let Header { base_digest, tags } = start.header;
    Ok(Log {
        base_digest,
        tags,
        entries,
    })
}

/// The entries that the lines after the first say.
fn entries_of(alloc: Global, start: &Start<'_>) -> Result<List<Entry>, LogFault>
    ensures { MatchResult result
        (λ entries. SayEntries start.now.header.tags [] 2 (lines_left start.now.rest) entries)
        (λ fault. fault ≢ LogFault.OutOfMemory → HaveFault start.now.header.tags [] 2 (lines_left start.now.rest) fault) }
{
    let mut rows = start.rows(alloc)?;
    let mut entries = List::new(alloc);
    'lines: loop {
        let next = next_entry(alloc, &mut rows)?;
        match next {
            Some(entry) => entries.add(entry)?,
            None => return Ok(entries),
        }
    }
}

/// The entry that the next line says, or nothing where there is no further line.
fn next_entry(alloc: Global, rows: &mut Rows<'_>) -> Result<Option<Entry>, LogFault>
    requires { Stands rows.old }
    ensures { (tags : Items (Items ℕ)) (earlier : Items Stamp) (number : ℕ) (lines : Items Line)
        → StandsOn rows.old tags earlier number lines
        → MatchResult result (IsNextEntry tags earlier number lines rows.new)
        (λ fault. fault ≢ LogFault.OutOfMemory → HaveFault tags earlier number lines fault) }
{
    let number = rows.number();
    let next = rows.next_row(alloc)?;
    match next {
        Some(found) => {
            let entry = entry_of(alloc, number, found)?;
            Ok(Some(entry))
        }
        None => Ok(None),
    }
}

/// The entry that a row spells, which the line of this number says.
fn entry_of(alloc: Global, number: u32, found: Recorded) -> Result<Entry, LogFault>
    requires stamped { is_stamp found.stamp ≡ true }
    requires formed { is_row found.row ≡ true }
    ensures entry { IfOk result (λ entry. SpellsEntry found entry) }
    ensures bad { IfErr result (λ fault. fault ≢ LogFault.OutOfMemory
        → (word : ℕ) × (fault ≡ LogFault.BadBody number word) × Bad found.row word) }
{
    match read_entry(alloc, found) {
        Ok(entry) => Ok(entry),
        Err(BadWord::Bad(word)) => Err(bad_body(number, word)),
        Err(BadWord::OutOfMemory) => Err(LogFault::OutOfMemory),
    }
}

/// A bad word. No memory holds a list of 2^32 words.
fn bad_body(number: u32, word: usize) -> LogFault
    ensures { result ≢ LogFault.OutOfMemory → result ≡ LogFault.BadBody number word }
{
    match u32::try_from(word) {
        Ok(word) => LogFault::BadBody(number, word),
        Err(_) => LogFault::OutOfMemory,
    }
}
