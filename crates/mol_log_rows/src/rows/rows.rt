//! The entries of a log as rows, line by line.
ghost use Rattle.std.specs.Prelude.{◌≢◌, ◌+◌, ◌<◌, ◌^◌, length, MatchResult};
ghost use Rattle.mol_log_rows.specs.lines.Lines.{lines_left, seen};
ghost use Rattle.mol_log_rows.specs.rows.RowLine.{SaysRow, IsRowFault};

use crate::lines::{LastNumbers, Line, Lines, LogFault, ObjectFault, read_line};
use crate::rows::{Recorded, read_row};
use mol_base::{OutOfMemory, Tag};
use std::alloc::Global;

/// The lines of a log that are not read yet, each of which is to say a row.
#[derive(Drop)]
pub struct Rows<'a> {
    rest: Lines<'a>,
    /// The number of the next line.
    number: u32,
    last: LastNumbers<'a>,
    ghost counted: { number + length (lines_left rest) < 2 ^ 32 },
}

impl<'a> Rows<'a> {
    ghost use Rattle.std.specs.Prelude.{◌≡◌, ◌≤◌, true, [], List, ℕ, IfOk};
    ghost use Rattle.mol_base.specs.declared.ident.Stamp.{Stamp};
    ghost use Rattle.mol_log_rows.specs.lines.Headers.{ascend};
    ghost use Rattle.mol_log_rows.specs.lines.Lines.{Line as AnyLine};
    ghost use Rattle.mol_log_rows.specs.rows.NextRow.{StandsOn, IsNext};

    /// The lines after the first, of a log whose header has these tags.
    pub(crate) fn new(
        alloc: Global,
        tags: &'a [Tag],
        rest: Lines<'a>,
    ) -> Result<Rows<'a>, OutOfMemory>
        requires ascending { ascend tags.now ≡ true }
        requires few { length (lines_left rest) ≤ 65536 }
        ensures { IfOk result (λ rows. StandsOn rows tags.now [] 2 (lines_left rest.entry)) }
    {
        let last = LastNumbers::new(alloc, tags)?;
        Ok(Rows {
            rest,
            number: 2,
            last,
        })
    }

    /// The number of the next line. Lines are counted from 1. It takes no memory.
    pub fn number(&self) -> u32
        ensures { result ≡ self.now.number }
    {
        self.number
    }

    /// The row that the next line says, or nothing where there is no further line.
    ///
    /// Refuses, in this order, a line that is torn, not UTF-8, no JSON text that nests at most 127 deep, no object
    /// of a stamp and an operation, and one whose stamp may not follow those before it. The line is passed then too,
    /// and its stamp counts for nothing.
    pub fn next_row(&mut self, alloc: Global) -> Result<Option<Recorded>, LogFault>
        ensures { (tags : List (List ℕ)) (earlier : List Stamp) (number : ℕ) (lines : List AnyLine)
            → StandsOn self.old tags earlier number lines
            → IsNext tags earlier number lines result self.new }
    {
        let Some(line) = self.rest.next_line() else {
            return Ok(None);
        };
        let number = self.number;
        self.number += 1;
        let found = row_of(alloc, number, line)?;
        if self.last.may_follow(&found.stamp) {
            self.last.take(&found.stamp);
            Ok(Some(found))
        } else {
            Err(LogFault::BadStamp(number))
        }
    }
}

/// The row that the line of this number says.
fn row_of(alloc: Global, number: u32, line: Line<'_>) -> Result<Recorded, LogFault>
    ensures { MatchResult result
        (λ found. SaysRow number (seen line.entry) found)
        (λ fault. fault ≢ LogFault.OutOfMemory → IsRowFault number (seen line.entry) fault) }
{
    let value = read_line(alloc, number, line)?;
    match read_row(alloc, value) {
        Ok(found) => Ok(found),
        Err(ObjectFault::OutOfMemory) => Err(LogFault::OutOfMemory),
        Err(ObjectFault::WrongForm) => Err(LogFault::BadOp(number)),
    }
}
