//! A source in memory.
ghost use Rattle.std.specs.Prelude.{◌≡◌, ℕ, ◌<◌, ◌≤◌, List, [], Some, true, All, length, take, min, ◌↔◌, IsErr, IfOk, OnErr};
ghost use Rattle.std.specs.Option.{ForSome};
ghost use Rattle.outside.specs.Counts.{Rose};
ghost use Rattle.outside.specs.Calls.{faults_of, next_call, next_fails};
ghost use Rattle.outside.specs.Streams.{before};
ghost use Rattle.outside.specs.MemStreams.{joined, current_piece, pieces_after};

use crate::numbering::Numbering;
use crate::{Failed, Source, SureSource};
use ss_text::Text;
use std::marker::Model;

/// A source that gives pieces in order, at most the rest of one piece a call, and fails at the calls
/// with these numbers, counted from 1.
#[derive(Drop)]
pub struct MemSource {
    source: SureSource,
    calls: Numbering,
}

impl Model for MemSource {
    ghost use Rattle.outside.specs.MemStreams.{MemSourceState};

    ghost Value = { MemSourceState };

    ghost view = { λ s. record { pieces = s.source.pieces; last = s.source.last; calls = s.calls } };
}

impl MemSource {
    /// A source of these pieces, of which the empty ones are passed over.
    pub fn of(pieces: Vec<Text>, fails: Vec<u64>) -> MemSource
        requires { All (λ k. k < 18446744073709551615) fails.items }
        ensures { result ≡ record { pieces = pieces.items; last = []; calls = record { fails = fails.items; calls = 0 } } }
    {
        MemSource {
            source: SureSource::of(pieces),
            calls: Numbering::of(fails),
        }
    }
}

impl Source for MemSource {
    ghost rest = { λ s. Some (joined s.pieces) };

    ghost last = { λ s. Some s.last };

    ghost faults = { λ s. faults_of s.calls };

    fn read(&mut self, into: &mut [u8]) -> Result<usize, Failed>
        ensures count { IfOk result (λ n. n ≤ length into.old) }
        ensures moved { IfOk result (λ n. Some (joined self.old.pieces) ≡ before (take n into.new) (Some (joined self.new.pieces))) }
        ensures end { IfOk result (λ n. (bytes : List ℕ) → Some (joined self.old.pieces) ≡ Some bytes → 0 < length into.old → n ≡ 0 → bytes ≡ []) }
        ensures given { IfOk result (λ n. ForSome (Some self.new.last) (λ bytes. bytes ≡ take n into.new)) }
        ensures err { OnErr result (Some (joined self.new.pieces) ≡ Some (joined self.old.pieces)) }
        ensures none { OnErr result (Some self.new.last ≡ Some self.old.last) }
        ensures failed { OnErr result (Rose (faults_of self.old.calls) (faults_of self.new.calls)) }
        ensures steady { faults_of self.old.calls ≤ faults_of self.new.calls }

        // What is particular to it.
        ensures fails { IsErr result ↔ (next_fails self.old.calls ≡ true) }
        ensures numbered { self.new.calls ≡ next_call self.old.calls }
        ensures most { IfOk result (λ n. n ≡ min (length (current_piece self.old.pieces)) (length into.old)) }
        ensures bytes { IfOk result (λ n. take n into.new ≡ take n (current_piece self.old.pieces)) }
        ensures left { IfOk result (λ n. self.new.pieces ≡ pieces_after n self.old.pieces) }
        ensures last { IfOk result (λ n. self.new.last ≡ take n into.new) }
        ensures unread { OnErr result ((self.new.pieces ≡ self.old.pieces) × (self.new.last ≡ self.old.last)) }
    {
        let fails = self.calls.next_fails();
        self.calls.count();
        if fails {
            return Err(Failed);
        }
        self.source.read(into)
    }
}
