//! The program `molref`: the words, the folders and the standard output are handed to `run`.
#![tactic(auto)]

use mol_base::{List, Text};
use mol_outside::{DirFiles, Sink, StdSink};
use mol_top::{Status, USAGE, run};
use std::env;
use std::io::ErrorKind;
use std::process::ExitCode;

/// Why the words cannot be taken.
enum Unread {
    NotUtf8,
    OutOfMemory,
}

/// The words after the program's name.
fn words(rt: &HostRuntime) -> Result<List<Text>, Unread> {
    let mut words = List::new(rt.alloc());
    let args = match env::args(rt) {
        Ok(args) => args,
        Err(error) if error.kind() == ErrorKind::OutOfMemory => return Err(Unread::OutOfMemory),
        Err(_) => return Err(Unread::NotUtf8),
    };
    for word in args.skip(1) {
        if words.push(Text::from_string(word)).is_err() {
            return Err(Unread::OutOfMemory);
        }
    }
    Ok(words)
}

fn main(rt: HostRuntime) -> ExitCode {
    let mut out = StdSink::new(&rt);
    match words(&rt) {
        Ok(words) => {
            let mut files = DirFiles::new(&rt);
            ExitCode::from(run(rt.alloc(), &words, &mut files, &mut out).code())
        }
        Err(Unread::NotUtf8) => {
            let _ = out.put(USAGE);
            ExitCode::from(Status::Usage.code())
        }
        Err(Unread::OutOfMemory) => {
            let _ = out.put(b"out-of-memory\n");
            ExitCode::from(Status::OutOfMemory.code())
        }
    }
}
