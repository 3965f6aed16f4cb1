//! The calls on a disk in memory, some of which fail.
ghost use Rattle.std.specs.Prelude.{◌≡◌, ◌≤◌, ◌<◌, ◌↔◌, true, All, IsErr, OnErr};
ghost use Rattle.outside.specs.Counts.{Rose};
ghost use Rattle.outside.specs.Calls.{faults_of, next_call, next_fails};

use outside::{Failed, MemSource, Source};
use std::alloc::Global;
use std::marker::Model;

/// Calls that are counted from 1, of which those with some numbers fail. Each is a read of a source without bytes, which
/// counts and fails so.
#[derive(Drop)]
pub(crate) struct NumberedCalls {
    source: MemSource,
}

impl Model for NumberedCalls {
    ghost use Rattle.outside.specs.Calls.{Calls};

    ghost Value = { Calls };

    ghost view = { λ n. n.source.calls };
}

impl NumberedCalls {
    /// No call yet, of those that these numbers are to fail. It takes no memory.
    pub(crate) fn of(alloc: Global, fails: Vec<u64>) -> NumberedCalls
        requires { All (λ k. k < 18446744073709551615) fails.items }
        ensures { result ≡ record { fails = fails.items; calls = 0 } }
    {
        NumberedCalls {
            source: MemSource::of(Vec::new(alloc), fails),
        }
    }

    /// The next call.
    pub(crate) fn count(&mut self) -> Result<(), Failed>
        ensures fails { IsErr result ↔ (next_fails self.old ≡ true) }
        ensures counted { self.new ≡ next_call self.old }
        ensures failed { OnErr result (Rose (faults_of self.old) (faults_of self.new)) }
        ensures steady { faults_of self.old ≤ faults_of self.new }
    {
        match self.source.read(&mut []) {
            Ok(_) => Ok(()),
            Err(failed) => Err(failed),
        }
    }
}
