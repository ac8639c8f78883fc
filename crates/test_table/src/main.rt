//! Takes a table through steps and prints what its calls answer. A line of standard input is one step: a word, and up to
//! two more. `shop`, `classes` and `numbered` make a table anew; `delete`, `rename` and `unlist` change it by an operation,
//! and `tidy` puts the tidied table in its place; `keep` keeps a copy of it, with which `same` compares it; the other steps
//! look into it. A line that begins with `#` is a comment.
#![tactic(auto)]

mod answers;
mod cells;
mod changes;
mod classes;
mod fault;
mod forms;
mod shop;
mod steps;

use std::io::{self, Read};
use steps::{Tables, answer_of};

fn main(rt: HostRuntime) -> io::Result<()> {
    let mut input = String::new(rt.alloc());
    rt.stdin().read_to_string(&mut input)?;
    let mut tables = Tables::new(rt.alloc());
    for line in input.lines() {
        if line.starts_with('#') {
            println!(rt; "{line}")?;
            continue;
        }
        match answer_of(rt.alloc(), &mut tables, line) {
            Ok(answer) => println!(rt; "{line}: {answer}")?,
            Err(fault) => println!(rt; "{line}: {}", fault.name())?,
        }
    }
    Ok(())
}
