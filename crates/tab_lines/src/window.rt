//! What is left of the piece that was read last.
ghost use Rattle.std.specs.Prelude.{◌≡◌, ℕ, ◌<◌, ◌≤◌, List, [], Some, length, take, drop, IfOk, OnErr};
ghost use Rattle.outside.specs.Counts.{Rose};
ghost use Rattle.outside.specs.Streams.{before, CameLast};

use outside::{Failed, Source};
use ss_text::NoMemory;
use std::alloc::Global;
use std::marker::Model;

/// The most bytes of a piece.
pub const PIECE: usize = 65_536;

/// What is left of the piece that was read last.
#[derive(Drop)]
pub struct Window {
    piece: Vec<u8>,
    from: usize,
    until: usize,
}

impl Model for Window {
    ghost use Rattle.std.specs.Prelude.{◌≡◌, ℕ, ◌≤◌, List, take, drop, vec_len};

    ghost Value = { List ℕ };

    ghost view = { λ w. drop w.from (take w.until w.piece.items) };

    ghost invariant = { λ w. record {
      piece : vec_len w.piece ≡ 65536;
      from : w.from ≤ w.until;
      until : w.until ≤ 65536;
    } };
}

impl Window {
    /// Nothing yet.
    pub fn new(alloc: Global) -> Result<Window, NoMemory>
        ensures { IfOk result (λ window. window ≡ []) }
    {
        Ok(Window {
            piece: vec![in alloc; 0; PIECE]?,
            from: 0,
            until: 0,
        })
    }

    /// What is left.
    pub fn bytes(&self) -> &[u8]
        ensures value { result.now ≡ self.now }
        ensures few { length self.now ≤ 65536 }
    {
        &self.piece[self.from..self.until]
    }

    /// Goes past so many bytes.
    pub fn pass(&mut self, n: usize)
        requires { n ≤ length self.old }
        ensures { self.new ≡ drop n self.old }
    {
        self.from += n;
    }

    /// Reads a piece of at most so many bytes, in place of what was left, and answers how many there are.
    /// Where the source fails, nothing is left.
    #[tactic(auto, using(crate::proofs::WindowLemmas::moved_front, crate::proofs::WindowLemmas::came_to_front))]
    pub fn fill<S: Source>(&mut self, source: &mut S, most: usize) -> Result<usize, Failed>
        requires some { 0 < most }
        requires few { most ≤ 65536 }
        ensures count { IfOk result (λ n. length self.new ≡ n) }
        ensures most { length self.new ≤ most }
        ensures moved { S.rest source.old ≡ before self.new (S.rest source.new) }
        ensures end { IfOk result (λ n. n ≡ 0 → (bytes : List ℕ) → S.rest source.old ≡ Some bytes → bytes ≡ []) }
        ensures given { IfOk result (λ _. CameLast (S.last source.new) self.new) }
        ensures failed { OnErr result (Rose (S.faults source.old) (S.faults source.new)) }
        ensures none { OnErr result ((self.new ≡ []) × (S.last source.new ≡ S.last source.old)) }
        ensures steady { S.faults source.old ≤ S.faults source.new }
    {
        self.from = 0;
        self.until = 0;
        let n = read_front(source, &mut self.piece, most)?;
        self.until = n;
        Ok(n)
    }
}

// Reads at most so many bytes to the front of a piece.
#[tactic(auto, using(crate::proofs::WindowLemmas::moved_front, crate::proofs::WindowLemmas::came_to_front))]
fn read_front<S: Source>(source: &mut S, piece: &mut [u8], most: usize) -> Result<usize, Failed>
    requires some { 0 < most }
    requires few { most ≤ length piece.old }
    ensures count { IfOk result (λ n. n ≤ most) }
    ensures moved { IfOk result (λ n. S.rest source.old ≡ before (take n piece.new) (S.rest source.new)) }
    ensures end { IfOk result (λ n. n ≡ 0 → (bytes : List ℕ) → S.rest source.old ≡ Some bytes → bytes ≡ []) }
    ensures given { IfOk result (λ n. CameLast (S.last source.new) (take n piece.new)) }
    ensures err { OnErr result ((S.rest source.new ≡ S.rest source.old) × (S.last source.new ≡ S.last source.old)) }
    ensures failed { OnErr result (Rose (S.faults source.old) (S.faults source.new)) }
    ensures steady { S.faults source.old ≤ S.faults source.new }
{
    source.read(&mut piece[..most])
}
