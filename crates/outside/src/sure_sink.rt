//! A sink in memory that never fails.
ghost use Rattle.std.specs.Prelude.{◌≡◌, ◌<◌, ◌≤◌, [], Some, length, take, min, OnErr, IfOk, IsErrOf};
ghost use Rattle.outside.specs.Counts.{Rose};
ghost use Rattle.outside.specs.Streams.{with_bytes};

use crate::{Sink, StoreFault};
use std::alloc::Global;
use std::marker::Model;

/// A sink that keeps what it is given, and takes at most so many bytes a call.
#[derive(Drop)]
pub struct SureSink {
    bytes: Vec<u8>,
    most: usize,
}

impl Model for SureSink {
    ghost use Rattle.std.specs.Prelude.{◌<◌};
    ghost use Rattle.outside.specs.MemStreams.{SureSinkState};

    ghost Value = { SureSinkState };

    ghost view = { λ s. record { held = s.bytes.items; most = s.most } };

    ghost invariant = { λ s. 0 < s.most };
}

impl SureSink {
    /// An empty sink.
    pub fn of(alloc: Global, most: usize) -> SureSink
        requires { 0 < most }
        ensures { result ≡ record { held = []; most = most } }
    {
        SureSink {
            bytes: Vec::new(alloc),
            most,
        }
    }

    /// What it holds.
    pub fn bytes(&self) -> &[u8]
        ensures { result.now ≡ self.now.held }
    {
        self.bytes.as_slice()
    }
}

impl Sink for SureSink {
    ghost state = { λ s. record { held = Some s.held; faults = 0 } };

    fn write(&mut self, _alloc: Global, piece: &[u8]) -> Result<usize, StoreFault>
        ensures count { IfOk result (λ n. n ≤ length piece.now) }
        ensures some { 0 < length piece.now → IfOk result (λ n. 0 < n) }
        ensures held { IfOk result (λ n. Some self.new.held ≡ with_bytes (take n piece.now) (Some self.old.held)) }
        ensures err { OnErr result (Some self.new.held ≡ Some self.old.held) }
        ensures failed { IsErrOf result StoreFault.Failed → Rose 0 0 }
        ensures steady { 0 ≤ 0 }

        // What is particular to it.
        ensures never_fails { ¬ (IsErrOf result StoreFault.Failed) }
        ensures takes { IfOk result (λ n. n ≡ min (length piece.now) self.old.most) }
        ensures most { self.new.most ≡ self.old.most }
    {
        let n = piece.len().min(self.most);
        self.bytes.extend_from_slice(&piece[..n])?;
        Ok(n)
    }
}
