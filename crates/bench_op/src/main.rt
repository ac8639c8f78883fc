//! Fills a table by operations, and applies operations of mixed kinds to it. A line of standard input names a step, a
//! number of entities of a base, and for some steps a number of operations; the number of identities that are known
//! afterwards is printed.
#![tactic(auto)]

mod additions;
mod fault;
mod groups;
mod operations;
mod steps;

use std::io::{self, Read};
use steps::count_of;

fn main(rt: HostRuntime) -> io::Result<()> {
    let mut input = String::new(rt.alloc());
    rt.stdin().read_to_string(&mut input)?;
    for line in input.lines() {
        match count_of(rt.alloc(), line) {
            Ok(number) => println!(rt; "{line}: {number}")?,
            Err(fault) => println!(rt; "{line}: {}", fault.name())?,
        }
    }
    Ok(())
}
