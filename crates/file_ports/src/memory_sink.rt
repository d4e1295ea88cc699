// A sink in memory, which can be told to fail.
ghost use Rattle.std.specs.Prelude.{◌≡◌, ◌↔◌, ◌<◌, ◌≤◌, [], length, min, Ok, Some, IfOk, IsErrOf};
ghost use Rattle.std.specs.Io.{WritesAtMost};
ghost use Rattle.std.specs.Io.KnownBytes.{WriteAppends};
ghost use Rattle.file_ports.specs.Faults.{greatest_count, HasRisen};
ghost use Rattle.file_ports.specs.Schedule.{FailsNext, IsOneCall};

use crate::schedule::Schedule;
use crate::{OutStop, Sink};
use std::marker::Model;

/// A sink that keeps what is written to it.
#[derive(Drop)]
pub struct MemorySink {
    bytes: Vec<u8>,
    most: usize,
    calls: Schedule,
}

impl Model for MemorySink {
    ghost use Rattle.std.specs.Prelude.{◌≤◌};
    ghost use Rattle.file_ports.specs.Faults.{greatest_count};
    ghost use Rattle.file_ports.specs.InMemory.{MemorySinkState};

    ghost Value = { MemorySinkState };

    ghost view = { λ s. record { written = s.bytes.items; most = s.most; calls = s.calls } };

    ghost invariant = { λ s. (1 ≤ s.most) × (s.calls.faults ≤ greatest_count) };
}

impl MemorySink {
    /// Nothing is written yet. A write takes at most `most` bytes, and the writes with the numbers in `failing`, from
    /// 0, fail. It takes no memory.
    pub fn new(most: usize, failing: Vec<u64>) -> Self
        requires { 1 ≤ most }
        ensures { result ≡ record {
          written = [];
          most = most;
          calls = record { failing = failing.items; next = 0; faults = 0 };
        } }
    {
        MemorySink {
            bytes: Vec::new(*failing.allocator()),
            most,
            calls: Schedule::new(failing),
        }
    }

    /// What was written.
    pub fn written(&self) -> &[u8]
        ensures { result.now ≡ self.now.written }
    {
        &self.bytes
    }
}

impl Sink for MemorySink {
    ghost written = { λ s. Some s.written };

    ghost faults = { λ s. s.calls.faults };

    fn write(&mut self, piece: &[u8]) -> Result<usize, OutStop>
        ensures bound { WritesAtMost result piece.now }
        ensures bytes { WriteAppends (Some self.old.written) (Some self.new.written) result piece.now }
        ensures count { self.old.calls.faults ≤ self.new.calls.faults }
        ensures limit { self.new.calls.faults ≤ greatest_count }
        ensures failed { IsErrOf result OutStop.Failed → HasRisen self.old.calls.faults self.new.calls.faults }
        ensures nothing_taken { result ≡ Ok 0 → 0 < length piece.now
            → HasRisen self.old.calls.faults self.new.calls.faults }

        // Exactly the numbered writes fail, no other call is a fault, and a write takes as much as it may.
        ensures fails { IsErrOf result OutStop.Failed ↔ FailsNext self.old.calls }
        ensures call { IsOneCall (FailsNext self.old.calls) self.old.calls self.new.calls }
        ensures takes { IfOk result (λ n. n ≡ min self.old.most (length piece.now)) }
        ensures most { self.new.most ≡ self.old.most }
    {
        if self.calls.fails() {
            return Err(OutStop::Failed);
        }
        let n = self.most.min(piece.len());
        self.bytes.extend_from_slice(&piece[..n])?;
        Ok(n)
    }
}
