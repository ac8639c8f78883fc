//! Applies operations to a table and prints what the calls answer. A line of standard input is one step: `ask` and `apply`
//! take an operation as the entry of a tag, `-` for the base, `tidy` puts the tidied table in its place, `keep` keeps a copy
//! of the table and `base` puts a copy of what was kept in its place, and `known`, `lives` and `is` look into it. An
//! operation is its kind and its parts in the order of `docs/FORMATS.md`, where each tree is written in the words beside its
//! variants (`IExpr`, `IStmtNode`). A line that begins with `#` is a comment.
#![tactic(auto)]

mod additions;
mod answer;
mod bodies;
mod calls;
mod cells;
mod changes;
mod exprs;
mod fault;
mod line;
mod operations;
mod params;
mod steps;
mod texts;
mod types;

use answer::Answer;
use fault::CaseFault;
use mol_base::Id;
use std::alloc::Global;
use std::io::{self, Read};
use steps::{Tables, answer_or_fault};

/// Adds a space and an identity to the text.
fn add_id(alloc: Global, text: &mut String, id: &Id) -> Result<(), CaseFault> {
    let spelled = id.write(alloc)?;
    text.push(' ')?;
    text.push_str(spelled.as_str())?;
    Ok(())
}

/// Adds an answer to the text.
fn add_answer(alloc: Global, text: &mut String, answer: &Answer) -> Result<(), CaseFault> {
    text.push_str(": ")?;
    text.push_str(answer.words)?;
    match answer.id {
        Some(id) => add_id(alloc, text, &id),
        None => Ok(()),
    }
}

/// Adds a line to the text and, where it is no comment, the answer to it.
fn add_line(
    alloc: Global,
    text: &mut String,
    tables: &mut Tables,
    line: &str,
) -> Result<(), CaseFault> {
    text.push_str(line)?;
    if !line.starts_with('#') {
        let answer = answer_or_fault(alloc, tables, line);
        add_answer(alloc, text, &answer)?;
    }
    text.push('\n')?;
    Ok(())
}

/// Adds all lines and the answers to them to the text.
fn add_lines(
    alloc: Global,
    text: &mut String,
    tables: &mut Tables,
    input: &str,
) -> Result<(), CaseFault> {
    for line in input.lines() {
        add_line(alloc, text, tables, line)?;
    }
    Ok(())
}

/// All lines, and the answers to them.
fn answers(alloc: Global, input: &str) -> Result<String, CaseFault> {
    let mut text = String::new(alloc);
    let mut tables = Tables::new(alloc);
    add_lines(alloc, &mut text, &mut tables, input)?;
    Ok(text)
}

fn main(rt: HostRuntime) -> io::Result<()> {
    let mut input = String::new(rt.alloc());
    rt.stdin().read_to_string(&mut input)?;
    match answers(rt.alloc(), input.as_str()) {
        Ok(text) => print!(rt; "{text}")?,
        Err(fault) => println!(rt; "{}", fault.name())?,
    }
    Ok(())
}
