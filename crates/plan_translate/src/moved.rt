//! Moves of a plan.
ghost use Rattle.std.specs.Prelude.{◌≡◌};

use join_delta::JoinReady;
use operator_law::Delta;
use std::marker::Model;

/// How a change moves what the joins of a plan keep, and its fact rows.
pub struct PlanMove {
    pub(crate) sides: Vec<(Delta, Delta)>,
    pub(crate) facts: Delta,
}

impl Drop for PlanMove {
    fn drop(self) {
        let PlanMove { sides, facts } = self;
        drop(sides);
        drop(facts);
    }
}

impl Model for PlanMove {
    ghost use Rattle.std.specs.Prelude.{map};
    ghost use Rattle.plan_translate.specs.ChainStages.{side_moves};
    ghost use Rattle.plan_translate.specs.Plans.{PlanMoveValue};

    ghost Value = { PlanMoveValue };

    ghost view = { λ m. record { sides = map side_moves m.sides.items; facts = m.facts } };
}

impl PlanMove {
    /// The fact rows that come, and those that go. None does both.
    pub fn facts(&self) -> &Delta
        ensures { result.now ≡ self.now.facts }
    {
        &self.facts
    }
}

/// Names the moves of the joins' sides that a plan was made ready for.
#[derive(Drop)]
pub struct PlanReady {
    pub(crate) joins: Vec<JoinReady>,
}

impl Model for PlanReady {
    ghost use Rattle.std.specs.Prelude.{List, map};
    ghost use Rattle.plan_law.specs.Chain.{SideMoves};
    ghost use Rattle.plan_translate.specs.ChainStages.{side_moves};

    ghost Value = { List SideMoves };

    ghost view = { λ r. map side_moves r.joins.items };
}
