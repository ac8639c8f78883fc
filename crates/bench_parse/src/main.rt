//! Reads Java sources from standard input, with a zero byte between two of them, and prints a line for each: how many
//! tokens its tree has, or its fault.
#![tactic(auto)]

use jav_lex::lex;
use jav_parse::parse;
use mol_base::OutOfMemory;
use std::alloc::Global;
use std::io::{self, Read};

/// The greatest source that is read, in bytes: those whose places fit the tokens.
const LONGEST: usize = 1 << 30;

/// The line of a source.
fn answer(alloc: Global, source: &[u8]) -> Result<String, OutOfMemory> {
    if LONGEST < source.len() {
        return Ok(String::from_str(alloc, "too long")?);
    }
    let tokens = match lex(alloc, source) {
        Ok(tokens) => tokens,
        Err(fault) => return Ok(format!(in alloc; "{fault}")?),
    };
    match parse(alloc, tokens.items()) {
        Ok(_) => Ok(format!(in alloc; "tokens {}", tokens.items().len())?),
        Err(fault) => Ok(format!(in alloc; "{fault}")?),
    }
}

fn main(rt: HostRuntime) -> io::Result<()> {
    let mut input = Vec::new(rt.alloc());
    rt.stdin().read_to_end(&mut input)?;
    for source in input.as_slice().split(|byte| *byte == 0) {
        match answer(rt.alloc(), source) {
            Ok(line) => println!(rt; "{line}")?,
            Err(OutOfMemory) => println!(rt; "out of memory")?,
        }
    }
    Ok(())
}
