//! Fills a table with classes and works on it. A line of standard input names a step, a number of classes of a base,
//! and for some steps a number of classes of each of two tags; what the step counts is printed.
#![tactic(auto)]

mod classes;
mod steps;

use mol_base::OutOfMemory;
use std::io::{self, Read};
use steps::count_after;

fn main(rt: HostRuntime) -> io::Result<()> {
    let mut input = String::new(rt.alloc());
    rt.stdin().read_to_string(&mut input)?;
    for line in input.lines() {
        let (step, numbers) = line.split_once(' ').unwrap_or((line, ""));
        let (base, count) = numbers.split_once(' ').unwrap_or((numbers, ""));
        let base = base.parse().unwrap_or(0);
        let count = count.parse().unwrap_or(0);
        match count_after(rt.alloc(), step, base, count) {
            Ok(Some(number)) => println!(rt; "{line}: {number}")?,
            Ok(None) => println!(rt; "{line}: no step")?,
            Err(OutOfMemory) => println!(rt; "{line}: out of memory")?,
        }
    }
    Ok(())
}
