//! Refusals, each with the line that it prints.
ghost use Rattle.std.specs.Prelude.{◌≡◌, ◌⊎◌, codes};
ghost use Rattle.mol_top.specs.Report.{line_bytes, refusal_line as line_for};

use crate::Status;
use crate::report::{USAGE, refusal_line};
use mol_base::OutOfMemory;
use std::alloc::Global;

/// The line of a refusal.
#[derive(Drop)]
pub enum Line {
    /// One that takes no memory.
    Fixed(&'static [u8]),
    Made(Vec<u8>),
}

impl Line {
    /// The bytes. It takes no memory.
    pub fn bytes(&self) -> &[u8]
        ensures { result.now ≡ line_bytes self.now }
    {
        match self {
            Line::Fixed(bytes) => bytes,
            Line::Made(bytes) => bytes.as_slice(),
        }
    }
}

/// Why a command stops before the first write.
#[derive(Drop)]
pub struct Refusal {
    pub status: Status,
    pub line: Line,
}

impl Refusal {
    /// The words are no command. It takes no memory.
    pub fn usage() -> Refusal
        ensures status { result.status ≡ Status.Usage }
        ensures line { line_bytes result.line ≡ line_for Status.Usage }
    {
        Refusal {
            status: Status::Usage,
            line: Line::Fixed(USAGE),
        }
    }

    /// Memory ran out. It takes none.
    pub fn out_of_memory() -> Refusal
        ensures status { result.status ≡ Status.OutOfMemory }
        ensures line { line_bytes result.line ≡ line_for Status.OutOfMemory }
    {
        Refusal {
            status: Status::OutOfMemory,
            line: Line::Fixed(b"out-of-memory\n"),
        }
    }

    /// This status with its line, which names no address of the base; want of memory where there is none for the line.
    pub fn of(alloc: Global, status: Status) -> Refusal
        ensures status { (result.status ≡ status) ⊎ (result.status ≡ Status.OutOfMemory) }
        ensures line { line_bytes result.line ≡ line_for result.status }
    {
        match refusal_line(alloc, &status) {
            Ok(line) => Refusal {
                status,
                line: Line::Made(line),
            },
            Err(OutOfMemory) => Refusal::out_of_memory(),
        }
    }
}
