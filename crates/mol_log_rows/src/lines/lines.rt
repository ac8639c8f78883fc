//! A log as lines.
ghost use Rattle.std.specs.Prelude.{◌≡◌, ◌≢◌, [], ◌∷◌, IfErr, OnOk, MatchOption, MatchResult};
ghost use Rattle.serde_json.specs.View.{view};
ghost use Rattle.mol_log_rows.specs.lines.Lines.{IsShort, IsSizeFault, lines_left, lines_of, line_data, seen};

use crate::lines::LogFault;
use mol_base::Which;
use serde_json::Value;
use std::alloc::Global;

/// A line without its LF.
#[derive(Clone, Copy)]
pub struct Line<'a> {
    pub bytes: &'a [u8],
    /// Whether LF ends it. Only the last line may lack it.
    pub ends: bool,
}

/// The lines of a log that are not taken yet.
#[derive(Clone, Copy)]
pub struct Lines<'a> {
    rest: &'a [u8],
}

impl<'a> Lines<'a> {
    /// The lines of these bytes. It takes no memory.
    pub fn of(bytes: &'a [u8]) -> Lines<'a>
        ensures { lines_left result ≡ lines_of bytes.now }
    {
        Lines { rest: bytes }
    }

    /// The next line, if there is one. It takes no memory.
    pub fn next_line(&mut self) -> Option<Line<'a>>
        ensures { MatchOption result
            ((lines_left self.old ≡ []) × (lines_left self.new ≡ []))
            (λ line. lines_left self.old ≡ seen line ∷ lines_left self.new) }
    {
        let rest = self.rest;
        if rest.is_empty() {
            return None;
        }
        match rest.iter().position(|byte| *byte == b'\n') {
            Some(end) => {
                self.rest = &rest[end + 1..];
                Some(Line {
                    bytes: &rest[..end],
                    ends: true,
                })
            }
            None => {
                self.rest = &rest[rest.len()..];
                Some(Line {
                    bytes: rest,
                    ends: false,
                })
            }
        }
    }
}

/// Refuses more bytes than a log may have, and then more entries, which are counted by the lines after the
/// first that end in LF. It takes no memory.
pub fn check_size(bytes: &[u8]) -> Result<(), LogFault>
    ensures ok { OnOk result (IsShort bytes.now) }
    ensures err { IfErr result (λ fault. IsSizeFault bytes.now fault) }
{
    let size = bytes.len() as u64;
    if Which::LogBytes.most() < size {
        return Err(LogFault::TooLong(Which::LogBytes, size));
    }
    let ends = bytes.iter().filter(|byte| **byte == b'\n').count();
    let entries = ends.saturating_sub(1) as u64;
    if Which::Operations.most() < entries {
        return Err(LogFault::TooLong(Which::Operations, entries));
    }
    Ok(())
}

/// What the line of this number says (RFC 8259). Refuses, in this order, a line without LF, one that is not
/// UTF-8, and one that is no JSON text which nests at most 127 deep.
pub fn read_line(alloc: Global, number: u32, line: Line<'_>) -> Result<Value, LogFault>
    ensures { MatchResult result
        (λ value. line_data number (seen line.entry) ≡ Ok (view value))
        (λ fault. fault ≢ LogFault.OutOfMemory → line_data number (seen line.entry) ≡ Err fault) }
{
    if !line.ends {
        return Err(LogFault::Torn(number));
    }
    let Ok(text) = std::str::from_utf8(line.bytes) else {
        return Err(LogFault::NotUtf8(number));
    };
    match Value::from_str(alloc, text) {
        Ok(value) => Ok(value),
        Err(error) => {
            if error.is_memory() {
                Err(LogFault::OutOfMemory)
            } else {
                Err(LogFault::NotJson(number))
            }
        }
    }
}
