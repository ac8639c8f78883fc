//! Reads logs and prints what reading answers of each. A line of standard input is a log with these marks: `#H` stands
//! for a header with the tag `ann` and its LF, `#B` for one with the tags `ann` and `bob`, `#n` for LF, `#x` for a byte
//! that is not UTF-8, and `#rN(TEXT)` for N of the text, in which `^` is the number of the copy, from 1, and `$` is LF.
//!
//! Of a log that is read it prints the number of its entries, and `same` where the log is written as it was read, else
//! `other`. What was written is read again and written once more, which must give the same bytes. A line `new TAG` is
//! answered by what is written of a log of this tag without entries.
#![tactic(auto)]

mod template;

use mol_base::{OutOfMemory, Tag};
use mol_log::{Log, read_log, write_log};
use std::alloc::Global;
use std::io::{self, Read};
use template::bytes_of;

/// What is printed for a line.
fn answer(alloc: Global, line: &str) -> Result<String, OutOfMemory> {
    if let Some(tag) = line.strip_prefix("new ") {
        return new_log(alloc, tag);
    }
    let bytes = bytes_of(alloc, line)?;
    match read_log(alloc, bytes.as_slice()) {
        Ok(log) => written_again(alloc, bytes.as_slice(), &log),
        Err(fault) => Ok(format!(in alloc; "{fault:?}")?),
    }
}

/// What is written of a log of this tag without entries, without its LF.
fn new_log(alloc: Global, tag: &str) -> Result<String, OutOfMemory> {
    let Ok(tag) = Tag::parse(tag.as_bytes()) else {
        return Ok(String::from_str(alloc, "no tag")?);
    };
    let log = Log::empty(alloc, [0x5a; 32], tag)?;
    let written = write_log(alloc, &log)?;
    let text = std::str::from_utf8(written.items()).unwrap_or("not UTF-8");
    Ok(String::from_str(alloc, text.trim_end())?)
}

/// What is printed of a log that was read from these bytes.
fn written_again(alloc: Global, bytes: &[u8], log: &Log) -> Result<String, OutOfMemory> {
    let count = log.entries.items().len();
    let written = write_log(alloc, log)?;
    let spelling = if written.items() == bytes {
        "same"
    } else {
        "other"
    };
    let again = read_again(alloc, written.items())?;
    Ok(format!(in alloc; "{count} {spelling}{again}")?)
}

/// What is wrong with a written log, if anything is: it is refused, or written as other bytes.
fn read_again(alloc: Global, written: &[u8]) -> Result<String, OutOfMemory> {
    match read_log(alloc, written) {
        Ok(log) => {
            if write_log(alloc, &log)?.items() == written {
                Ok(String::new(alloc))
            } else {
                Ok(String::from_str(alloc, ", and another log when read again")?)
            }
        }
        Err(fault) => Ok(format!(in alloc; ", and {fault:?} when read again")?),
    }
}

fn main(rt: HostRuntime) -> io::Result<()> {
    let alloc = rt.alloc();
    let mut input = String::new(alloc);
    rt.stdin().read_to_string(&mut input)?;
    for line in input.lines() {
        match answer(alloc, line) {
            Ok(text) => println!(rt; "{text}")?,
            Err(OutOfMemory) => println!(rt; "out of memory")?,
        }
    }
    Ok(())
}
