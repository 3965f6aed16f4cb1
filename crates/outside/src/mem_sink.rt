//! A sink in memory.
ghost use Rattle.std.specs.Prelude.{◌≡◌, ◌<◌, ◌≤◌, [], Some, true, All, length, take, min, ◌↔◌, OnErr, IfOk, IsErrOf};
ghost use Rattle.outside.specs.Counts.{Rose};
ghost use Rattle.outside.specs.Calls.{faults_of, next_fails, CountedUnlessNoMemory};
ghost use Rattle.outside.specs.Streams.{with_bytes};

use crate::numbering::Numbering;
use crate::{Sink, StoreFault, SureSink};
use std::alloc::Global;
use std::marker::Model;

/// A sink that keeps what it is given, takes at most so many bytes a call, and fails at the calls
/// with these numbers, counted from 1.
#[derive(Drop)]
pub struct MemSink {
    sink: SureSink,
    calls: Numbering,
}

impl Model for MemSink {
    ghost use Rattle.outside.specs.MemStreams.{MemSinkState};

    ghost Value = { MemSinkState };

    ghost view = { λ s. record { held = s.sink.held; most = s.sink.most; calls = s.calls } };
}

impl MemSink {
    /// An empty sink.
    pub fn of(alloc: Global, most: usize, fails: Vec<u64>) -> MemSink
        requires most { 0 < most }
        requires fails { All (λ k. k < 18446744073709551615) fails.items }
        ensures { result ≡ record { held = []; most = most; calls = record { fails = fails.items; calls = 0 } } }
    {
        MemSink {
            sink: SureSink::of(alloc, most),
            calls: Numbering::of(fails),
        }
    }

    /// What it holds.
    pub fn bytes(&self) -> &[u8]
        ensures { result.now ≡ self.now.held }
    {
        self.sink.bytes()
    }
}

impl Sink for MemSink {
    ghost state = { λ s. record { held = Some s.held; faults = faults_of s.calls } };

    fn write(&mut self, alloc: Global, piece: &[u8]) -> Result<usize, StoreFault>
        ensures count { IfOk result (λ n. n ≤ length piece.now) }
        ensures some { 0 < length piece.now → IfOk result (λ n. 0 < n) }
        ensures held { IfOk result (λ n. Some self.new.held ≡ with_bytes (take n piece.now) (Some self.old.held)) }
        ensures err { OnErr result (Some self.new.held ≡ Some self.old.held) }
        ensures failed { IsErrOf result StoreFault.Failed → Rose (faults_of self.old.calls) (faults_of self.new.calls) }
        ensures steady { faults_of self.old.calls ≤ faults_of self.new.calls }

        // What is particular to it.
        ensures fails { IsErrOf result StoreFault.Failed ↔ (next_fails self.old.calls ≡ true) }
        ensures numbered { CountedUnlessNoMemory result self.old.calls self.new.calls }
        ensures takes { IfOk result (λ n. n ≡ min (length piece.now) self.old.most) }
        ensures most { self.new.most ≡ self.old.most }
    {
        if self.calls.next_fails() {
            self.calls.count();
            return Err(StoreFault::Failed);
        }
        let n = self.sink.write(alloc, piece)?;
        self.calls.count();
        Ok(n)
    }
}
