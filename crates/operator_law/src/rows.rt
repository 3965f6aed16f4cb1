//! Rows as a thing that moves.
ghost use Rattle.std.specs.Prelude.{List};
ghost use Rattle.ss_text.specs.Texts.{Row as RowValue};
ghost use Rattle.operator_law.specs.Bags.{MovesBag, MovesCounts};
ghost use Rattle.operator_law.specs.declared.delta.Signed.{Signed as SignedValue};

use crate::Delta;
use flow_law::Moves;
use ss_text::Row;
use std::marker::Model;

/// The rows that a `Delta` moves, which contracts see as a list of them. Nothing that is said of them depends on
/// their order.
#[derive(Debug, Drop)]
pub struct Rows {
    pub rows: Vec<Row>,
}

impl Model for Rows {
    ghost use Rattle.std.specs.Prelude.{List, ℕ};

    ghost Value = { List (List (List ℕ)) };

    ghost view = { λ b. b.rows.items };
}

impl Moves for Delta {
    ghost use Rattle.operator_law.specs.Bags.{MovesBag};

    type Thing = Rows;

    ghost moves = { λ x g y. MovesBag x g y };
}

/// Rows are moved just where the count of each row is.
#[tactic(auto, using(crate::proofs::Counts::moves_from_counts))]
pub fn moves_by_counts()
    ensures from { (xs ys : List RowValue) (ms : List SignedValue) → MovesCounts xs ms ys → MovesBag xs ms ys }
    ensures to { (xs ys : List RowValue) (ms : List SignedValue) → MovesBag xs ms ys → MovesCounts xs ms ys }
{}
