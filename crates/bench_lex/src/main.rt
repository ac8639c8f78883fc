//! Reads a Java source from standard input and prints how many tokens it has, or its fault.
#![tactic(auto)]

use jav_lex::lex;
use std::io::{self, Read};

/// The greatest source that is read, in bytes: those whose places fit the tokens.
const LONGEST: usize = 1 << 30;

fn main(rt: HostRuntime) -> io::Result<()> {
    let mut source = Vec::new(rt.alloc());
    rt.stdin().read_to_end(&mut source)?;
    if LONGEST < source.len() {
        println!(rt; "too long")?;
        return Ok(());
    }
    match lex(rt.alloc(), source.as_slice()) {
        Ok(tokens) => println!(rt; "{}", tokens.items().len())?,
        Err(fault) => println!(rt; "{fault}")?,
    }
    Ok(())
}
