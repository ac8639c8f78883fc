//! Runs commands over memory, and changes programs, and prints what that leaves.
//!
//! Standard input has sections, with two empty lines between two. The first line of each says what its rows are:
//!
//! - `runs`: files that are there, and commands over them, some with calls that fail (`run_rows`).
//! - `faults`: programs that the entries of logs make and change, of which the faults are printed (`fault_rows`).
#![tactic(auto)]

mod case;
mod case_fault;
mod changed;
mod escapes;
mod fault_rows;
mod given;
mod left;
mod programs;
mod run_rows;
mod running;

use mol_base::OutOfMemory;
use std::alloc::Global;
use std::io::{self, Read};

/// What is printed for a section.
fn answers(alloc: Global, section: &str) -> Result<String, OutOfMemory> {
    let (name, rows) = section.split_once('\n').unwrap_or((section, ""));
    match name {
        "runs" => run_rows::answers(alloc, rows),
        "faults" => fault_rows::answers(alloc, rows),
        _ => Ok(format!(in alloc; "{name}: no section\n")?),
    }
}

fn main(rt: HostRuntime) -> io::Result<()> {
    let mut input = String::new(rt.alloc());
    rt.stdin().read_to_string(&mut input)?;
    for section in input.split("\n\n\n") {
        match answers(rt.alloc(), section) {
            Ok(text) => print!(rt; "{text}")?,
            Err(OutOfMemory) => println!(rt; "out of memory")?,
        }
    }
    Ok(())
}
