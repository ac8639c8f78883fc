//! Reads a log from standard input and prints how many entries it has, or its first fault. With any word behind its name
//! it writes the log as logs are written, in place of that number.
#![tactic(auto)]

use mol_base::OutOfMemory;
use mol_log::{Log, read_log, write_log};
use std::env;
use std::io::{self, Read, Write};

/// Writes the log to standard output.
fn put(rt: &HostRuntime, log: &Log) -> io::Result<()> {
    match write_log(rt.alloc(), log) {
        Ok(written) => rt.stdout().write_all(written.items()),
        Err(OutOfMemory) => Err(io::Error::from(io::ErrorKind::OutOfMemory)),
    }
}

fn main(rt: HostRuntime) -> io::Result<()> {
    let writes = env::args(&rt)?.count() > 1;
    let mut bytes = Vec::new(rt.alloc());
    rt.stdin().read_to_end(&mut bytes)?;
    match read_log(rt.alloc(), bytes.as_slice()) {
        Ok(log) if writes => put(&rt, &log)?,
        Ok(log) => println!(rt; "entries {}", log.entries.items().len())?,
        Err(fault) => println!(rt; "{fault:?}")?,
    }
    Ok(())
}
