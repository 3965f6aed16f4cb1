//! Moving both sides: all memory first, and then the moves.
ghost use Rattle.std.specs.Prelude.{◌≡◌, IfOk, MatchResult, Some, None};
ghost use Rattle.row_links.specs.Live.{LinkedRows};
ghost use Rattle.operator_law.specs.Bags.{SameBag};
ghost use Rattle.join_delta.specs.Walks.{rows_of};
ghost use Rattle.join_delta.specs.Joins.{JoinValue};

use crate::Join;
use crate::side::{move_side, ready_side};
use operator_law::{Delta, Kept};
use ss_text::{NoMemory, Row};
use std::alloc::Global;
use std::marker::Model;
use std::snapshot::Snapshot;

/// What was made ready for a change, beside the rows that wait in both sides.
pub(crate) struct Waiting {
    pub of: Snapshot<(Delta, Delta)>,
    pub left_ups: usize,
    pub left_downs: Vec<Row>,
    pub right_ups: usize,
    pub right_downs: Vec<Row>,
}

impl Drop for Waiting {
    fn drop(self) {
        let Waiting {
            of,
            left_ups: _,
            left_downs,
            right_ups: _,
            right_downs,
        } = self;
        drop(of);
        drop(left_downs);
        drop(right_downs);
    }
}

/// Names the change that a join was made ready for.
pub struct JoinReady {
    of: Snapshot<(Delta, Delta)>,
}

impl Drop for JoinReady {
    fn drop(self) {
        let JoinReady { of } = self;
        drop(of);
    }
}

impl Model for JoinReady {
    ghost use Rattle.std.specs.Prelude.{List};
    ghost use Rattle.operator_law.specs.declared.delta.Signed.{Signed};

    ghost Value = { List Signed × List Signed };

    ghost view = { λ r. r.of.value };
}

impl Kept for Join {
    type Change = (Delta, Delta);

    type Ready = JoinReady;

    ghost keeps = { λ j x. SameBag x.0 j.left × SameBag x.1 j.right };

    ghost can_keep = { λ j x. Unit {0} };

    ghost alike = { λ a b. (a.left_key ≡ b.left_key) × (a.right_key ≡ b.right_key) };

    ghost waiting = { λ j. j.waiting };

    ghost made_for = { λ r. r };

    ghost can_reserve = { λ j g. Unit {0} };

    fn reserve(&mut self, alloc: Global, change: &(Delta, Delta)) -> Result<JoinReady, NoMemory> {
        self.waiting = None;
        let (left_ups, left_downs) = ready_side(alloc, &mut self.left, &change.0.moves)?;
        let (right_ups, right_downs) = ready_side(alloc, &mut self.right, &change.1.moves)?;
        self.waiting = Some(Waiting {
            of: Snapshot::of(change),
            left_ups,
            left_downs,
            right_ups,
            right_downs,
        });
        Ok(JoinReady {
            of: Snapshot::of(change),
        })
    }

    fn commit(&mut self, ready: JoinReady) {
        if let Some(waiting) = self.waiting.take() {
            move_side(&mut self.left, waiting.left_ups, &waiting.left_downs);
            move_side(&mut self.right, waiting.right_ups, &waiting.right_downs);
        }
    }

    ghost keeps_alike = { λ s t x a h. tt };
}
