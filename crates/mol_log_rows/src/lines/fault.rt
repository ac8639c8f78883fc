//! Why bytes are no log.
use mol_base::{OutOfMemory, Which};

/// Why bytes are no log. Lines are counted from 1, and words of a body, a value or a type from 0.
#[derive(Clone, Copy, Debug, PartialEq, Eq)]
pub enum LogFault {
    OutOfMemory,
    /// More bytes, or more entries, than a log may have, and how many.
    TooLong(Which, u64),
    /// The first line is no header.
    BadHeader,
    /// The line does not end in LF.
    Torn(u32),
    NotUtf8(u32),
    /// The line is no JSON text (RFC 8259) that nests at most 127 deep.
    NotJson(u32),
    /// The line is no object of a stamp and an operation.
    BadOp(u32),
    /// The stamp's tag is none of the header's, or its number is no greater than the last one of the tag.
    BadStamp(u32),
    /// A list of words of the line spells nothing. The second number is that of the word at which this is
    /// certain, or how many words there are where they end early.
    BadBody(u32, u32),
}

impl From<OutOfMemory> for LogFault {
    ghost use Rattle.std.specs.Prelude.{◌≡◌};
    ghost use Rattle.mol_log_rows.specs.declared.lines.fault.LogFault.TheVariants.{OutOfMemory as Wants};

    ghost from_gives = { λ _ fault. fault ≡ Wants };

    fn from(_: OutOfMemory) -> LogFault {
        LogFault::OutOfMemory
    }
}
