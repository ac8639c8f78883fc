//! Programs that the entries of logs make.
use crate::case_fault::CaseFault;
use mol_base::Tag;
use mol_log::{Entry, Log, LogFault, read_log};
use mol_op::{ApplyFault, Operation};
use mol_table::Table;
use std::alloc::{AllocError, Global};

/// The header of a log with the tags of the base and of two changes. Nothing here asks for the digest.
const HEADER: &str =
    r#"{"base":"0000000000000000000000000000000000000000000000000000000000000000","format":1,"tags":["a","ann","bob"]}"#;

/// The program that entries make from nothing, those of the base first.
pub fn program_of(alloc: Global, base: &str, changes: &str) -> Result<Table, CaseFault> {
    let log = log_of(alloc, base, changes)?;
    applied(alloc, log.entries.items())
}

/// The log of these entries.
fn log_of(alloc: Global, base: &str, changes: &str) -> Result<Log, CaseFault> {
    let mut text = String::new(alloc);
    push_lines(&mut text, HEADER)?;
    push_lines(&mut text, base)?;
    push_lines(&mut text, changes)?;
    match read_log(alloc, text.as_bytes()) {
        Ok(log) => Ok(log),
        Err(LogFault::OutOfMemory) => Err(CaseFault::OutOfMemory),
        Err(_) => Err(CaseFault::NoLog),
    }
}

/// Appends lines, each with its LF.
fn push_lines(text: &mut String, lines: &str) -> Result<(), AllocError> {
    for line in lines.lines() {
        text.push_str(line)?;
        text.push('\n')?;
    }
    Ok(())
}

/// The program that entries make from nothing.
fn applied(alloc: Global, entries: &[Entry]) -> Result<Table, CaseFault> {
    let mut table = Table::new(alloc);
    apply_each(alloc, entries, &mut table)?;
    Ok(table)
}

/// Applies entries in their order.
fn apply_each(alloc: Global, entries: &[Entry], table: &mut Table) -> Result<(), CaseFault> {
    for entry in entries {
        apply(alloc, &entry.op, entry.stamp.tag, table)?;
    }
    Ok(())
}

/// Applies an operation, as an entry of this tag.
fn apply<O: Operation>(
    alloc: Global,
    operation: &O,
    tag: Tag,
    table: &mut Table,
) -> Result<(), CaseFault> {
    match operation.apply(alloc, tag, table) {
        Ok(()) => Ok(()),
        Err(ApplyFault::Refused(_)) => Err(CaseFault::Refused),
        Err(ApplyFault::OutOfMemory) => Err(CaseFault::OutOfMemory),
    }
}
