//! Types of changes.
use crate::{TableLine, Tables};

/// A type of changes, with what they move.
pub trait Moves {
    /// What a change moves.
    type Thing;

    // That a change takes the first thing to the second.
    ghost moves: { Self.Thing → Self → Self.Thing → Type 0 };
}

impl<A: Moves, B: Moves> Moves for (A, B) {
    type Thing = (A::Thing, B::Thing);

    ghost moves = { λ x g y. A.moves x.0 g.0 y.0 × B.moves x.1 g.1 y.1 };
}

impl Moves for Vec<TableLine> {
    ghost use Rattle.std.specs.Prelude.{◌≡◌, IsTrue};
    ghost use Rattle.flow_law.specs.Lines.{fit_lines, after_lines};

    type Thing = Tables;

    ghost moves = { λ x lines y. IsTrue (fit_lines x lines.items) × (y ≡ after_lines x lines.items) };
}
