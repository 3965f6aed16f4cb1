//! Streams of bytes: what a run reads and what it writes.
ghost use Rattle.std.specs.Prelude.{◌≡◌, ℕ, ◌<◌, ◌≤◌, List, [], Option, Some, length, take, IfOk, OnErr, IsErrOf};
ghost use Rattle.std.specs.Option.{ForSome};
ghost use Rattle.outside.specs.Counts.{Rose};
ghost use Rattle.outside.specs.States.{SinkState};
ghost use Rattle.outside.specs.Streams.{before, with_bytes};

use crate::{Failed, StoreFault};
use std::alloc::Global;

/// Bytes to read.
pub trait Source {
    /// The bytes that are left, where the source tells them.
    ghost rest: { Self → Option (List ℕ) };

    /// The bytes that the last read gave, where the source tells them.
    ghost last: { Self → Option (List ℕ) };

    /// How many calls have failed.
    ghost faults: { Self → ℕ };

    /// Moves bytes to the front of a piece, and answers how many. Into a piece that is not empty,
    /// 0 is the end of the input.
    fn read(&mut self, into: &mut [u8]) -> Result<usize, Failed>
        ensures count { IfOk result (λ n. n ≤ length into.old) }
        ensures moved { IfOk result (λ n. rest self.old ≡ before (take n into.new) (rest self.new)) }
        ensures end { IfOk result (λ n. (bytes : List ℕ) → rest self.old ≡ Some bytes → 0 < length into.old → n ≡ 0 → bytes ≡ []) }

        ensures given { IfOk result (λ n. ForSome (last self.new) (λ bytes. bytes ≡ take n into.new)) }

        // A call that fails takes nothing.
        ensures err { OnErr result (rest self.new ≡ rest self.old) }
        ensures none { OnErr result (last self.new ≡ last self.old) }
        ensures failed { OnErr result (Rose (faults self.old) (faults self.new)) }
        ensures steady { faults self.old ≤ faults self.new };
}

/// A place to write bytes.
pub trait Sink {
    /// What is known of it.
    ghost state: { Self → SinkState };

    /// Appends the first bytes of a piece, at least one where it is not empty, and answers how many.
    fn write(&mut self, alloc: Global, piece: &[u8]) -> Result<usize, StoreFault>
        ensures count { IfOk result (λ n. n ≤ length piece.now) }
        ensures some { 0 < length piece.now → IfOk result (λ n. 0 < n) }
        ensures held { IfOk result (λ n. (state self.new).held ≡ with_bytes (take n piece.now) ((state self.old).held)) }
        ensures err { OnErr result ((state self.new).held ≡ (state self.old).held) }
        ensures failed { IsErrOf result StoreFault.Failed → Rose ((state self.old).faults) ((state self.new).faults) }
        ensures steady { (state self.old).faults ≤ (state self.new).faults };
}
