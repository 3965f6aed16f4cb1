//! The walk of moves through a chain of joins.
ghost use Rattle.std.specs.Prelude.{◌≡◌, ◌+◌, ◌≤◌, ◌∷◌, [], ◌++◌, map, length, IfOk, OnOk};
ghost use Rattle.std.specs.List.{AllByRecursion};
ghost use Rattle.operator_law.specs.Bags.{SameBag};
ghost use Rattle.join_delta.specs.Joined.{matches, joined_moves, pairs_right, pairs_left};
ghost use Rattle.schema_delta.specs.Net.{SameNet, IsNet};
ghost use Rattle.plan_law.specs.Chain.{Walks, AreNet, joint_moves, walk_pairs};
ghost use Rattle.plan_translate.specs.ChainStages.{joint_in, sides_in, side_moves};
ghost use Rattle.plan_translate.specs.ChainCost.{CostsWalk};

use join_delta::Join;
use operator_law::{Delta, Operator};
use schema_delta::net;
use ss_text::{NoMemory, Steps};
use std::alloc::Global;
use std::sync::ledger::Ledger;

/// The walk of a change: the moves of both sides of each join, in the order of the joins, and the moves of the rows that
/// the last one gives.
#[derive(Drop)]
pub struct WalkMoves {
    pub sides: Vec<(Delta, Delta)>,
    pub out: Delta,
}

// How the moves of both sides move what a join gives.
fn joined<L: Ledger>(
    alloc: Global,
    join: &Join,
    change: &(Delta, Delta),
    steps: &mut Steps<L>,
) -> Result<Delta, NoMemory>
    ensures moves { let equal = matches join.now.left_key join.now.right_key in
        IfOk result (λ d. SameBag d (joined_moves equal join.now.left join.now.right change.now.0 change.now.1)) }
    ensures cost { let equal = matches join.now.left_key join.now.right_key in
        steps.new ≤ steps.old + pairs_right equal join.now.right change.now.0 + pairs_left equal join.now.left change.now.1 }
    ensures rises { steps.old ≤ steps.new }
{
    join.prepare(alloc, &(), change, steps)
}

// One join of the walk: its sides' moves are noted, and what it moves in net is answered.
fn stage<L: Ledger>(
    alloc: Global,
    join: &Join,
    left: Delta,
    right: Delta,
    sides: &mut Vec<(Delta, Delta)>,
    steps: &mut Steps<L>,
) -> Result<Delta, NoMemory>
    ensures next { IfOk result (SameNet (joint_moves (joint_in join.now) (sides_in join.now) left right)) }
    ensures net { IfOk result IsNet }
    ensures sides { OnOk result (sides.new.items ≡ sides.old.items ++ (left, right) ∷ []) }
    ensures cost { let equal = matches join.now.left_key join.now.right_key in
        steps.new ≤ steps.old + pairs_right equal join.now.right left + pairs_left equal join.now.left right }
    ensures rises { steps.old ≤ steps.new }
{
    let change = (left, right);
    let joined = joined(alloc, join, &change, steps)?;
    let next = net(alloc, join.seed(), joined)?;
    sides.push(change)?;
    Ok(next)
}

/// How these moves of the first join's left side, and those of each join's right side, walk through the joins. Whatever is
/// answered, the steps are at most the pairs of such a walk.
pub fn walk<L: Ledger>(
    alloc: Global,
    joins: &[Join],
    first: Delta,
    further: Vec<Delta>,
    steps: &mut Steps<L>,
) -> Result<WalkMoves, NoMemory>
    requires { length further.items ≡ length joins.now }
    ensures walks { IfOk result (λ w. Walks (map joint_in joins.now) (map sides_in joins.now) first further.items (map side_moves w.sides.items) w.out) }
    ensures each { IfOk result (λ w. length w.sides.items ≡ length joins.now) }
    ensures nets { IfOk result (λ w. IsNet first → AllByRecursion IsNet further.items → AreNet (map side_moves w.sides.items) × IsNet w.out) }
    ensures cost { IfOk result (λ w. steps.new ≤ steps.old + walk_pairs (map joint_in joins.now) (map sides_in joins.now) (map side_moves w.sides.items)) }
    ensures within { CostsWalk (map joint_in joins.now) (map sides_in joins.now) first further.items steps.old steps.new }
    ensures rises { steps.old ≤ steps.new }
{
    let mut sides = Vec::with_capacity(alloc, joins.len())?;
    let mut moves = first;
    for right in further {
        let join = &joins[sides.len()];
        moves = stage(alloc, join, moves, right, &mut sides, steps)?;
    }
    Ok(WalkMoves { sides, out: moves })
}
