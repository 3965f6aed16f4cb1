//! A disk of one file.
ghost use Rattle.std.specs.Prelude.{◌≡◌, ℕ, ◌+◌, ◌<◌, ◌≤◌, ◌^◌, List, Some, length, take, drop, IfOk, OnOk, OnErr, IsErrOf, option_map};
ghost use Rattle.outside.specs.Counts.{Rose};
ghost use Rattle.disk.specs.Disk.{Content, DiskState, MayLeave, MayBreakOff, with_written, with_synced};
ghost use Rattle.disk.specs.Moments.{Elapses};

use outside::{Failed, StoreFault};
use std::alloc::Global;

/// A file whose bytes outlast a crash once they are synced. Places count from 0.
///
/// Between two syncs that succeed two parts are in doubt: each range that was written, and all past the size at the first
/// of these syncs. After a crash they may hold any bytes, and of the part past that size any end may be missing. A write
/// that fails counts as one of its range.
pub trait Disk {
    /// What is known of it.
    ghost state: { Self → DiskState };

    /// What a crash at some moment from this one on might have left, between two calls or within one.
    ghost left_since: { Self → ℕ → List ℕ → Type 0 };

    /// How many bytes it holds.
    fn size(&mut self) -> Result<u64, Failed>
        ensures told { IfOk result (λ n. (held : Content) → (state self.old).content ≡ Some held → n ≡ length held.bytes) }
        ensures content { (state self.new).content ≡ (state self.old).content }
        ensures time { Elapses (state self.old) (state self.new) (left_since self.old) (left_since self.new) }
        ensures failed { OnErr result (Rose ((state self.old).faults) ((state self.new).faults)) }
        ensures steady { (state self.old).faults ≤ (state self.new).faults };

    /// Reads as many bytes as the piece has, from a place on. After a failure the piece may hold anything.
    fn read_at(&mut self, at: u64, into: &mut [u8]) -> Result<(), Failed>
        requires { (held : Content) → (state self.old).content ≡ Some held → at + length into.old ≤ length held.bytes }
        ensures told { OnOk result ((held : Content) → (state self.old).content ≡ Some held → into.new ≡ take (length into.old) (drop at held.bytes)) }
        ensures content { (state self.new).content ≡ (state self.old).content }
        ensures time { Elapses (state self.old) (state self.new) (left_since self.old) (left_since self.new) }
        ensures failed { OnErr result (Rose ((state self.old).faults) ((state self.new).faults)) }
        ensures steady { (state self.old).faults ≤ (state self.new).faults };

    /// Writes bytes from a place on, over what is there, and past the end. A call that fails has written any part of it; one
    /// that found no memory has written nothing.
    fn write_at(&mut self, alloc: Global, at: u64, bytes: &[u8]) -> Result<(), StoreFault>
        requires within { (held : Content) → (state self.old).content ≡ Some held → at ≤ length held.bytes }
        requires fits { at + length bytes.now < 2 ^ 62 }
        ensures ok { OnOk result ((state self.new).content ≡ option_map (with_written at bytes.now) ((state self.old).content)) }
        ensures broke_off { IsErrOf result StoreFault.Failed → MayBreakOff at (length bytes.now) ((state self.old).content) ((state self.new).content) }
        ensures no_memory { IsErrOf result StoreFault.NoMemory → (state self.new).content ≡ (state self.old).content }
        ensures no_fault { IsErrOf result StoreFault.NoMemory → (state self.new).faults ≡ (state self.old).faults }
        ensures time { Elapses (state self.old) (state self.new) (left_since self.old) (left_since self.new) }
        ensures failed { IsErrOf result StoreFault.Failed → Rose ((state self.old).faults) ((state self.new).faults) }
        ensures steady { (state self.old).faults ≤ (state self.new).faults };

    /// Makes stable all that was written: after it a crash leaves what a read gives. A call that fails changes nothing of what
    /// is in doubt.
    fn sync(&mut self) -> Result<(), Failed>
        ensures ok { OnOk result ((state self.new).content ≡ option_map with_synced ((state self.old).content)) }
        ensures err { OnErr result ((state self.new).content ≡ (state self.old).content) }
        ensures time { Elapses (state self.old) (state self.new) (left_since self.old) (left_since self.new) }
        ensures failed { OnErr result (Rose ((state self.old).faults) ((state self.new).faults)) }
        ensures steady { (state self.old).faults ≤ (state self.new).faults };

    /// The stable size lies in the file, so that a disk as it reads is one of its images.
    ghost reads: { (s : Self) (held : Content) → (state s).content ≡ Some held → held.stable ≤ length held.bytes };

    /// This moment is one of those since an earlier one.
    ghost counts_now: { (s : Self) (t : ℕ) (image : List ℕ) → t ≤ (state s).moment → MayLeave ((state s).content) image → left_since s t image };

    /// Since this moment there is no other.
    ghost only_now: { (s : Self) (image : List ℕ) → left_since s ((state s).moment) image → MayLeave ((state s).content) image };
}
