//! Standard output as a sink.
ghost use Rattle.std.specs.Prelude.{◌≡◌, ◌≤◌, ℕ, OnOk, OnErr, take};
ghost use Rattle.mol_outside.specs.Contents.{HasRisen, appended, raised, untold_bytes};

use crate::dir_files::write_whole;
use crate::{Failed, Sink};
use std::io;
use std::io::Write;
use std::marker::Model;
use std::rt::Runtime;

/// Standard output. It tells nothing of what was written.
#[derive(Drop)]
pub struct StdSink<'a, R> {
    rt: &'a R,
    faults: u64,
}

impl<'a, R> Model for StdSink<'a, R> {
    ghost use Rattle.std.specs.Prelude.{ℕ};
    ghost use Rattle.std.specs.Coded.{coded_ℕ};

    ghost Value = { ℕ };

    ghost coded = { coded_ℕ };

    ghost view = { λ s. s.faults };
}

impl<'a, R> StdSink<'a, R> {
    /// Standard output, with no failed put counted yet. It takes no memory.
    pub fn new(rt: &'a R) -> StdSink<'a, R>
        ensures { result ≡ 0 }
    {
        StdSink { rt, faults: 0 }
    }
}

impl<R: Runtime> Sink for StdSink<'_, R> {
    ghost written = { λ _. untold_bytes };

    ghost faults = { λ s. s };

    fn put(&mut self, bytes: &[u8]) -> Result<(), Failed>
        ensures after { OnOk result (self.new ≡ self.old) }
        ensures after_failed { OnErr result (self.new ≡ raised self.old) }

        // what the trait says
        ensures whole { OnOk result (untold_bytes ≡ appended bytes.now untold_bytes) }
        ensures part { OnErr result ((n : ℕ) × (untold_bytes ≡ appended (take n bytes.now) untold_bytes)) }
        ensures failed { OnErr result (HasRisen self.old self.new) }
        ensures later { self.old ≤ self.new }
    {
        let mut out = io::writer(self.rt);
        if write_whole(&mut out, bytes).is_ok() && out.flush().is_ok() {
            Ok(())
        } else {
            self.faults = self.faults.saturating_add(1);
            Err(Failed)
        }
    }
}
