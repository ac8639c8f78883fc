//! A log up to the end of its first line.
ghost use Rattle.std.specs.Prelude.{◌≡◌, ◌≢◌, ◌≤◌, true, length, MatchResult};
ghost use Rattle.mol_log_rows.specs.lines.Headers.{ascend};
ghost use Rattle.mol_log_rows.specs.lines.Lines.{lines_left, seen};
ghost use Rattle.mol_log_rows.specs.rows.FirstLine.{SaysFirst, IsFirstFault, SaysHeader, IsHeaderFault};

use crate::lines::{
    Header, Line, Lines, LogFault, ObjectFault, check_size, read_header, read_line,
};
use crate::rows::Rows;
use mol_base::OutOfMemory;
use std::alloc::Global;

/// The header of a log, and the lines that follow.
#[derive(Drop)]
pub struct Start<'a> {
    pub header: Header,
    rest: Lines<'a>,
    ghost ascending: { ascend header.tags ≡ true },
    ghost few: { length (lines_left rest) ≤ 65536 },
}

impl Start<'_> {
    ghost use Rattle.std.specs.Prelude.{[], IfOk};
    ghost use Rattle.mol_log_rows.specs.rows.NextRow.{StandsOn};

    /// The lines that follow, to be read one after the other. `Err` is want of memory.
    pub fn rows(&self, alloc: Global) -> Result<Rows<'_>, OutOfMemory>
        ensures { IfOk result (λ rows. StandsOn rows self.now.header.tags [] 2 (lines_left self.now.rest)) }
    {
        Rows::new(alloc, self.header.tags.items(), self.rest)
    }
}

/// The header of a log, and the lines that follow. Nothing is asked of those.
///
/// Refuses, in this order, more bytes and then more entries than a log may have, bytes without a line, and a first
/// line that is torn, not UTF-8, no JSON text that nests at most 127 deep, or no header.
pub fn read_start(alloc: Global, bytes: &[u8]) -> Result<Start<'_>, LogFault>
    ensures { MatchResult result
        (λ start. SaysFirst bytes.now start.header (lines_left start.rest))
        (λ fault. fault ≢ LogFault.OutOfMemory → IsFirstFault bytes.now fault) }
{
    check_size(bytes)?;
    let mut rest = Lines::of(bytes);
    let Some(first) = rest.next_line() else {
        return Err(LogFault::BadHeader);
    };
    let header = header_of(alloc, first)?;
    Ok(Start { header, rest })
}

/// The header that the first line says.
fn header_of(alloc: Global, line: Line<'_>) -> Result<Header, LogFault>
    ensures { MatchResult result
        (λ header. SaysHeader (seen line.entry) header)
        (λ fault. fault ≢ LogFault.OutOfMemory → IsHeaderFault (seen line.entry) fault) }
{
    let value = read_line(alloc, 1, line)?;
    match read_header(alloc, value) {
        Ok(header) => Ok(header),
        Err(ObjectFault::OutOfMemory) => Err(LogFault::OutOfMemory),
        Err(ObjectFault::WrongForm) => Err(LogFault::BadHeader),
    }
}
