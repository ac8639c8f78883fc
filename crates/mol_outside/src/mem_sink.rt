//! A sink over memory, with failing calls.
ghost use Rattle.std.specs.Prelude.{◌≡◌, ◌-◌, [], length, take, Some, IfOk, IsErr, ◌↔◌, OnErr, OnOk, ◌≤◌, ℕ, ◌++◌};
ghost use Rattle.mol_outside.specs.Memory.{PutFails};
ghost use Rattle.mol_outside.specs.Contents.{appended, HasRisen, raised};

use crate::{Failed, Sink};
use mol_base::{List, OutOfMemory};
use std::alloc::Global;
use std::marker::Model;

/// A sink that keeps what it is given. Puts take no memory, and there may be any number of them.
#[derive(Drop)]
pub struct MemSink {
    bytes: Vec<u8>,
    failing: List<u64>,
    calls: u64,
    left: usize,
    faults: u64,
}

impl Model for MemSink {
    ghost use Rattle.std.specs.Prelude.{◌≤◌, ◌+◌, vec_len, vec_capacity};
    ghost use Rattle.mol_outside.specs.Memory.{SinkState};

    ghost Value = { SinkState };

    ghost view = { λ s. record { bytes = s.bytes.items; failing = s.failing; calls = s.calls; left = s.left; faults = s.faults } };

    ghost invariant = { λ s. vec_len s.bytes + s.left ≤ vec_capacity s.bytes };
}

impl MemSink {
    /// A sink that was given nothing yet. Its puts are numbered from 1; a put whose number is in
    /// `failing` fails, as does one of more bytes than are left of `room`.
    pub fn new(alloc: Global, failing: &List<u64>, room: usize) -> Result<MemSink, OutOfMemory>
        ensures { IfOk result (λ sink. sink ≡ record { bytes = []; failing = failing.now; calls = 0; left = room; faults = 0 }) }
    {
        Ok(MemSink {
            failing: failing.copy(alloc)?,
            bytes: Vec::with_capacity(alloc, room)?,
            calls: 0,
            left: room,
            faults: 0,
        })
    }

    /// All that the sink was given. It takes no memory.
    pub fn bytes(&self) -> &[u8]
        ensures { result.now ≡ self.now.bytes }
    {
        self.bytes.as_slice()
    }
}

impl Sink for MemSink {
    ghost written = { λ s. Some s.bytes };

    ghost faults = { λ s. s.faults };

    /// A put that fails gives the sink nothing. The number of the put stands still at 2^64 - 1.
    fn put(&mut self, bytes: &[u8]) -> Result<(), Failed>
        ensures exactly { IsErr result ↔ PutFails self.old (length bytes.now) }
        ensures after { OnOk result (self.new ≡ record self.old { bytes = self.old.bytes ++ bytes.now; calls = raised self.old.calls; left = self.old.left - length bytes.now }) }
        ensures after_failed { OnErr result (self.new ≡ record self.old { calls = raised self.old.calls; faults = raised self.old.faults }) }

        // what the trait says
        ensures whole { OnOk result (Some self.new.bytes ≡ appended bytes.now (Some self.old.bytes)) }
        ensures part { OnErr result ((n : ℕ) × (Some self.new.bytes ≡ appended (take n bytes.now) (Some self.old.bytes))) }
        ensures failed { OnErr result (HasRisen self.old.faults self.new.faults) }
        ensures later { self.old.faults ≤ self.new.faults }
    {
        self.calls = self.calls.saturating_add(1);
        if self.failing.items().contains(&self.calls) || self.left < bytes.len() {
            self.faults = self.faults.saturating_add(1);
            return Err(Failed);
        }
        let Ok(()) = self.bytes.extend_from_slice(bytes) else {
            unreachable!();
        };
        self.left -= bytes.len();
        Ok(())
    }
}
