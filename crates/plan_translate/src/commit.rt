//! Moving what a plan keeps: all memory first, and then the moves.
ghost use Rattle.std.specs.Prelude.{◌≡◌, List, map, Some, None, IfOk, OnOk, MatchResult};
ghost use Rattle.std.specs.List.{AllZip};
ghost use Rattle.schema_model.specs.Catalogue.{CatalogueValue};
ghost use Rattle.join_delta.specs.Joins.{JoinValue};
ghost use Rattle.plan_translate.specs.Moves.{MovesSides};
ghost use Rattle.plan_translate.specs.Plans.{query_in, PlanStands, PlanMoves, StandsAs};
ghost use Rattle.plan_translate.specs.Sides.{LikeJoin, CanMove, AllMoved};

use crate::{Plan, PlanMove, PlanReady};
use join_delta::{Join, JoinReady};
use operator_law::{Delta, Kept};
use ss_text::NoMemory;
use std::alloc::Global;
use std::snapshot::Snapshot;

// Takes all memory that moving the sides of each join needs.
fn reserve_each(
    alloc: Global,
    joins: &mut Vec<Join>,
    sides: &[(Delta, Delta)],
) -> Result<Vec<JoinReady>, NoMemory>
    requires { AllZip CanMove joins.old.items sides.now }
    ensures alike { AllZip LikeJoin joins.old.items joins.new.items }
    ensures ready { IfOk result (λ ready. ready.items ≡ sides.now) }
    ensures waits { OnOk result (map (λ (j : JoinValue). j.waiting) joins.new.items ≡ map Some sides.now) }
{
    let mut ready = Vec::with_capacity(alloc, sides.len())?;
    for join in joins.iter_mut() {
        let change = &sides[ready.len()];
        ready.push(join.reserve(alloc, change)?)?;
    }
    Ok(ready)
}

// Moves the sides of each join, the last one first.
fn commit_each(joins: &mut Vec<Join>, ready: Vec<JoinReady>)
    requires { map (λ (j : JoinValue). j.waiting) joins.old.items ≡ map Some ready.items }
    ensures { AllMoved joins.old.items ready.items joins.new.items }
{
    let mut left = ready;
    while let Some(last) = left.pop() {
        joins[left.len()].commit(last);
    }
}

impl Plan {
    // Takes all memory that these moves need.
    pub(crate) fn ready_for(
        &mut self,
        alloc: Global,
        moved: &PlanMove,
    ) -> Result<PlanReady, NoMemory>
        requires { (c : CatalogueValue) × (c' : CatalogueValue) × PlanStands c self.old × MovesSides c c' (query_in self.old) moved.now.sides }
        ensures same { StandsAs self.old self.new }
        ensures ready { IfOk result (λ ready. ready ≡ moved.now.sides) }
        ensures waits { MatchResult result (λ _. self.new.waiting ≡ Some moved.now.sides) (λ _. self.new.waiting ≡ None) }
    {
        self.waiting = None;
        let joins = reserve_each(alloc, &mut self.joins, &moved.sides)?;
        self.waiting = Some(Snapshot::of(&moved.sides));
        Ok(PlanReady { joins })
    }

    /// Takes all memory that a move of this plan needs, which was prepared since it was last committed. The move waits then,
    /// or after `NoMemory` none does; what the plan stands for stays.
    pub fn reserve(&mut self, alloc: Global, moved: PlanMove) -> Result<PlanReady, NoMemory>
        requires { (c : CatalogueValue) × (c' : CatalogueValue) × PlanStands c self.old × PlanMoves c c' (query_in self.old) moved }
        ensures same { StandsAs self.old self.new }
        ensures ready { IfOk result (λ ready. ready ≡ moved.sides) }
        ensures waits { MatchResult result (λ _. self.new.waiting ≡ Some moved.sides) (λ _. self.new.waiting ≡ None) }
    {
        self.ready_for(alloc, &moved)
    }

    /// Moves what the plan keeps by the move that waits, so that it stands for the catalogue after the change. This takes no
    /// memory.
    pub fn commit(&mut self, ready: PlanReady)
        requires { self.old.waiting ≡ Some ready }
        ensures stands { (c c' : CatalogueValue) → PlanStands c self.old → MovesSides c c' (query_in self.old) ready → PlanStands c' self.new }
        ensures view { self.new.view ≡ self.old.view }
        ensures none { self.new.waiting ≡ None }
    {
        self.waiting = None;
        commit_each(&mut self.joins, ready.joins);
    }
}
