//! Asks the calls on single texts, and prints what they answer: what one token is, the tokens of a source, tags, identities
//! and stamps, words, texts and lists.
//!
//! A line of standard input names a call and has its texts, with a space before each. `%` and two hexadecimal digits stand for a byte.
#![tactic(auto)]

mod escapes;
mod order;
mod spelled;
mod tokens;
mod values;
mod words;

use mol_base::OutOfMemory;
use std::alloc::Global;
use std::io::{self, Read};

/// What the call of a line answers.
fn answer(alloc: Global, call: &str, rest: &str) -> Result<String, OutOfMemory> {
    match call {
        "place" => tokens::place(alloc, rest),
        "kinds" => tokens::kinds(alloc, rest),
        "front" => tokens::front(alloc, rest),
        "escape" => tokens::escape(alloc, rest),
        "lex" => tokens::lexed(alloc, rest),
        "tag" => spelled::tag(alloc, rest),
        "id" => spelled::identity(alloc, rest),
        "stamp" => spelled::stamp(alloc, rest),
        "ids" => order::identities(alloc, rest),
        "stamps" => order::stamps(alloc, rest),
        "texts" => order::texts(alloc, rest),
        _ => other_answer(alloc, call, rest),
    }
}

/// What a call on words or values answers.
fn other_answer(alloc: Global, call: &str, rest: &str) -> Result<String, OutOfMemory> {
    match call {
        "reserved" => words::reserved(alloc, rest),
        "level" => words::level(alloc, rest),
        "operator" => words::operator(alloc, rest),
        "modifiers" => words::modifiers(alloc, rest),
        "path" => words::path(alloc, rest),
        "limits" => values::limits(alloc),
        "text" => values::text(alloc, rest),
        "copies" => values::copies(alloc, rest),
        "list" => values::list(alloc, rest),
        "box" => values::boxed(alloc, rest),
        _ => Ok(String::from_str(alloc, "no call")?),
    }
}

fn main(rt: HostRuntime) -> io::Result<()> {
    let mut input = String::new(rt.alloc());
    rt.stdin().read_to_string(&mut input)?;
    for line in input.lines() {
        let (call, rest) = line.split_once(' ').unwrap_or((line, ""));
        match answer(rt.alloc(), call, rest) {
            Ok(text) => println!(rt; "{line}: {text}")?,
            Err(OutOfMemory) => println!(rt; "{line}: out of memory")?,
        }
    }
    Ok(())
}
