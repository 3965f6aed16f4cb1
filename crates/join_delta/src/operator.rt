//! How a change of both sides moves their join.
ghost use Rattle.std.specs.Prelude.{◌≡◌, ◌≤◌, ◌+◌, IfOk, IfErr};
ghost use Rattle.operator_law.specs.Bags.{SameBag};
ghost use Rattle.join_delta.specs.Joined.{matches, joined, joined_moves, pairs_right, pairs_left};

use crate::Join;
use crate::pairs::pairs;
use crate::products::Keyed;
use operator_law::{Delta, Operator};
use ss_text::{NoMemory, Steps};
use std::alloc::Global;
use std::sync::ledger::Ledger;

impl Join {
    // The moves of each side with the rows of the other, and the moves of one with those of the other.
    fn moves<L: Ledger>(
        &self,
        alloc: Global,
        change: &(Delta, Delta),
        steps: &mut Steps<L>,
    ) -> Result<Delta, NoMemory>
        ensures moves { let equal = matches self.now.left_key self.now.right_key in
            IfOk result (λ d. SameBag d (joined_moves equal self.now.left self.now.right change.now.0 change.now.1)) }
        ensures cost { let equal = matches self.now.left_key self.now.right_key in
            steps.new ≤ steps.old + pairs_right equal self.now.right change.now.0 + pairs_left equal self.now.left change.now.1 }
        ensures rises { steps.old ≤ steps.new }
    {
        let first = Keyed {
            moves: &change.0.moves,
            key: self.left_key.as_slice(),
        };
        let second = Keyed {
            moves: &change.1.moves,
            key: self.right_key.as_slice(),
        };
        let delta = pairs(alloc, first, second, &self.left, &self.right, steps)?;
        Ok(delta)
    }
}

impl Operator for Join {
    type Input = ();

    type Change = (Delta, Delta);

    type Output = Delta;

    type Fault = NoMemory;

    ghost value = { λ j x. joined (matches j.left_key j.right_key) x.0 x.1 };

    ghost stands_for = { λ j i x. SameBag x.0 j.left × SameBag x.1 j.right };

    ghost can_prepare = { λ j i g. Unit {0} };

    ghost gives = { λ j i g o. SameBag o (joined_moves (matches j.left_key j.right_key) j.left j.right g.0 g.1) };

    ghost may_stop = { λ j i g stop. Unit {0} };

    ghost is_bound = { λ j i g n. pairs_right (matches j.left_key j.right_key) j.right g.0 + pairs_left (matches j.left_key j.right_key) j.left g.1 ≤ n };

    fn prepare<L: Ledger>(
        &self,
        alloc: Global,
        input: &(),
        change: &(Delta, Delta),
        steps: &mut Steps<L>,
    ) -> Result<Delta, NoMemory> {
        let delta = self.moves(alloc, change, steps)?;
        Ok(delta)
    }
}
