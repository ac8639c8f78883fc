//! Why bytes are no log, as text.
ghost use Rattle.std.specs.Prelude.{◌≡◌, ◌++◌, ◌∷◌, IfOk, codes, string_bytes};
ghost use Rattle.std.specs.Fmt.{decimal};
ghost use Rattle.mol_report_logs.specs.Limits.{limit_text};
ghost use Rattle.mol_report_logs.specs.LogFaults.{log_fault_text};

use crate::limits::limit_word;
use mol_base::{List, OutOfMemory, Which};
use mol_log_rows::LogFault;
use std::alloc::Global;

/// The text of why bytes are no log, without a line end: the fault's name in lower-case words joined by `-`, and its fields, a space
/// before each. Lines of the log are counted from 1, words of a line from 0; a limit is written by its word, and the number that passes
/// it. ASCII. `Err` is want of memory.
pub fn log_fault_line(alloc: Global, fault: &LogFault) -> Result<List<u8>, OutOfMemory>
    ensures { IfOk result (λ text. text ≡ log_fault_text fault.now) }
{
    let text = text_of(alloc, fault)?;
    Ok(List::from_vec(text.into_bytes()))
}

/// The same, as a `String`.
fn text_of(alloc: Global, fault: &LogFault) -> Result<String, OutOfMemory>
    ensures { IfOk result (λ text. string_bytes text ≡ log_fault_text fault.now) }
{
    match fault {
        LogFault::OutOfMemory => named(alloc, "out-of-memory"),
        LogFault::TooLong(which, count) => too_long(alloc, which, *count),
        LogFault::BadHeader => named(alloc, "bad-header"),
        LogFault::Torn(line) => at_line(alloc, "torn", *line),
        LogFault::NotUtf8(line) => at_line(alloc, "not-utf8", *line),
        LogFault::NotJson(line) => at_line(alloc, "not-json", *line),
        LogFault::BadOp(line) => at_line(alloc, "bad-op", *line),
        LogFault::BadStamp(line) => at_line(alloc, "bad-stamp", *line),
        LogFault::BadBody(line, word) => bad_body(alloc, *line, *word),
    }
}

/// A fault that has a name and nothing more.
fn named(alloc: Global, name: &str) -> Result<String, OutOfMemory>
    ensures { IfOk result (λ text. string_bytes text ≡ name.now) }
{
    Ok(String::from_str(alloc, name)?)
}

/// A fault of a line.
fn at_line(alloc: Global, name: &str, line: u32) -> Result<String, OutOfMemory>
    ensures { IfOk result (λ text. string_bytes text ≡ name.now ++ 32 ∷ decimal line) }
{
    Ok(format!(in alloc; "{name} {line}")?)
}

/// A limit, and the number that passes it.
fn too_long(alloc: Global, which: &Which, count: u64) -> Result<String, OutOfMemory>
    ensures { IfOk result (λ text. string_bytes text ≡ codes "too-long " ++ limit_text which.now ++ 32 ∷ decimal count) }
{
    Ok(format!(in alloc; "too-long {} {count}", limit_word(which))?)
}

/// A line with words that spell nothing, and the first such word.
fn bad_body(alloc: Global, line: u32, word: u32) -> Result<String, OutOfMemory>
    ensures { IfOk result (λ text. string_bytes text ≡ codes "bad-body " ++ decimal line ++ 32 ∷ decimal word) }
{
    Ok(format!(in alloc; "bad-body {line} {word}")?)
}
