//! A source in memory that never fails.
ghost use Rattle.std.specs.Prelude.{◌≡◌, ℕ, ◌-◌, ◌+◌, ◌<◌, ◌≤◌, ◌^◌, List, [], Some, length, take, drop, min, slice_index_or, IsOk, IfOk, OnErr};
ghost use Rattle.std.specs.Option.{ForSome};
ghost use Rattle.outside.specs.Counts.{Rose};
ghost use Rattle.outside.specs.Streams.{before};
ghost use Rattle.outside.specs.MemStreams.{joined, current_piece, pieces_after, begun};

use crate::{Failed, Source};
use ss_text::Text;
use std::marker::Model;

/// A source that gives pieces in order, at most the rest of one piece a call. Contracts see it as the
/// list of the pieces that are left, the first of which may be begun, and what the last read gave.
#[derive(Drop)]
pub struct SureSource {
    pieces: Vec<Text>,
    piece: usize,
    // Where the last read of this piece began, and where it ended.
    from: usize,
    at: usize,
}

impl Model for SureSource {
    ghost use Rattle.std.specs.Prelude.{◌≤◌, length, drop, slice_index_or, vec_len, []};
    ghost use Rattle.outside.specs.MemStreams.{SureSourceState, begun, between};

    ghost Value = { SureSourceState };

    ghost view = { λ s. record {
      pieces = begun s.at (drop s.piece s.pieces.items);
      last = between s.from s.at (slice_index_or s.pieces.items s.piece []);
    } };

    ghost invariant = { λ s. record {
      within : s.at ≤ length (slice_index_or s.pieces.items s.piece []);
      piece : s.piece ≤ vec_len s.pieces;
    } };
}

impl SureSource {
    /// A source of these pieces, of which the empty ones are passed over.
    #[tactic(auto, using(crate::proofs::PieceLemmas::none_begun))]
    pub fn of(pieces: Vec<Text>) -> SureSource
        ensures { result ≡ record { pieces = pieces.items; last = [] } }
    {
        SureSource {
            pieces,
            piece: 0,
            from: 0,
            at: 0,
        }
    }

    // Moves bytes of the current piece to the front of another, as many as fit, and answers how many.
    #[tactic(auto, using(crate::proofs::PieceLemmas::none_between, crate::proofs::PieceLemmas::moved_between))]
    fn move_front(&mut self, into: &mut [u8]) -> usize
        ensures most { result ≡ min (length (current_piece self.old.pieces)) (length into.old) }
        ensures bytes { take result into.new ≡ take result (current_piece self.old.pieces) }
        ensures left { self.new.pieces ≡ pieces_after result self.old.pieces }
        ensures last { self.new.last ≡ take result into.new }
    {
        self.piece = unused_from(&self.pieces, self.piece, &mut self.at);
        self.from = self.at;
        if self.piece == self.pieces.len() {
            return 0;
        }
        let moved = move_rest(&self.pieces, self.piece, self.at, into);
        self.at += moved;
        moved
    }
}

impl Source for SureSource {
    ghost rest = { λ s. Some (joined s.pieces) };

    ghost last = { λ s. Some s.last };

    ghost faults = { λ _. 0 };

    #[tactic(auto, using(crate::proofs::PieceLemmas::read_moves, crate::proofs::PieceLemmas::read_ends))]
    fn read(&mut self, into: &mut [u8]) -> Result<usize, Failed>
        ensures count { IfOk result (λ n. n ≤ length into.old) }
        ensures moved { IfOk result (λ n. Some (joined self.old.pieces) ≡ before (take n into.new) (Some (joined self.new.pieces))) }
        ensures end { IfOk result (λ n. (bytes : List ℕ) → Some (joined self.old.pieces) ≡ Some bytes → 0 < length into.old → n ≡ 0 → bytes ≡ []) }
        ensures given { IfOk result (λ n. ForSome (Some self.new.last) (λ bytes. bytes ≡ take n into.new)) }
        ensures err { OnErr result (Some (joined self.new.pieces) ≡ Some (joined self.old.pieces)) }
        ensures none { OnErr result (Some self.new.last ≡ Some self.old.last) }
        ensures failed { OnErr result (Rose 0 0) }
        ensures steady { 0 ≤ 0 }

        // What is particular to it.
        ensures never_fails { IsOk result }
        ensures most { IfOk result (λ n. n ≡ min (length (current_piece self.old.pieces)) (length into.old)) }
        ensures bytes { IfOk result (λ n. take n into.new ≡ take n (current_piece self.old.pieces)) }
        ensures left { IfOk result (λ n. self.new.pieces ≡ pieces_after n self.old.pieces) }
        ensures last { IfOk result (λ n. self.new.last ≡ take n into.new) }
    {
        Ok(self.move_front(into))
    }
}

// The first piece from this one on that has bytes left after its place `at`, which is 0 in a later one.
#[tactic(auto, using(crate::proofs::PieceLemmas::used_up))]
fn unused_from(pieces: &[Text], mut piece: usize, at: &mut usize) -> usize
    requires within { at.old ≤ length (slice_index_or pieces.now piece []) }
    requires piece { piece ≤ length pieces.now }
    ensures current { current_piece (begun at.new (drop result pieces.now)) ≡ current_piece (begun at.old (drop piece pieces.now)) }
    ensures after { (n : ℕ) → pieces_after n (begun at.new (drop result pieces.now)) ≡ pieces_after n (begun at.old (drop piece pieces.now)) }
    ensures within { at.new ≤ length (slice_index_or pieces.now result []) }
    ensures piece { result ≤ length pieces.now }
    ensures some { result < length pieces.now → at.new < length (slice_index_or pieces.now result []) }
{
    while piece < pieces.len() && pieces[piece].as_slice().len() <= *at {
        piece += 1;
        *at = 0;
    }
    piece
}

// Moves as much as fits of a piece, from its byte `at` on, to the front of another.
fn move_rest(pieces: &[Text], piece: usize, at: usize, into: &mut [u8]) -> usize
    requires piece { piece < length pieces.now }
    requires within { at ≤ length (slice_index_or pieces.now piece []) }
    ensures count { result ≡ min (length (slice_index_or pieces.now piece []) - at) (length into.old) }
    ensures fits { at + result < 2 ^ 64 }
    ensures moved { take result into.new ≡ take result (drop at (slice_index_or pieces.now piece [])) }
{
    let rest = &pieces[piece].as_slice()[at..];
    let n = rest.len().min(into.len());
    into[..n].copy_from_slice(&rest[..n]);
    n
}
