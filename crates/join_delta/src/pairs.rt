//! The change of a join: moves with kept rows of the other side, and moves with moves.
ghost use Rattle.std.specs.Prelude.{◌≡◌, ◌≤◌, ◌+◌, [], ◌∷◌, IfOk};
ghost use Rattle.operator_law.specs.Bags.{SameBag};
ghost use Rattle.join_delta.specs.Joined.{matches, joined_moves, pairs_right, pairs_left};
ghost use Rattle.join_delta.specs.Walks.{rows_of};

use crate::partners::add_all_kept;
use crate::products::{Keyed, add_products};
use operator_law::Delta;
use row_links::Linked;
use ss_text::{NoMemory, Steps};
use std::alloc::Global;
use std::sync::ledger::Ledger;

/// How moves of both sides move the join of the kept rows. Its steps are the pairs of a move with a kept row of the other side.
pub(crate) fn pairs<L: Ledger>(
    alloc: Global,
    first: Keyed<'_>,
    second: Keyed<'_>,
    left: &Linked,
    right: &Linked,
    steps: &mut Steps<L>,
) -> Result<Delta, NoMemory>
    requires left { left.now.keys ≡ first.key.now ∷ [] }
    requires right { right.now.keys ≡ second.key.now ∷ [] }
    ensures moves { let equal = matches first.entry.key.now second.entry.key.now in
        IfOk result (λ d. SameBag d (joined_moves equal (rows_of left.now.live) (rows_of right.now.live) first.entry.moves.now second.entry.moves.now)) }
    ensures cost { let equal = matches first.entry.key.now second.entry.key.now in
        steps.new ≤ steps.old + pairs_right equal (rows_of right.now.live) first.entry.moves.now + pairs_left equal (rows_of left.now.live) second.entry.moves.now }
    ensures rises { steps.old ≤ steps.new }
{
    let mut moves = Vec::new(alloc);
    add_all_kept(
        alloc,
        right,
        first.key,
        first.moves,
        false,
        &mut moves,
        steps,
    )?;
    add_all_kept(
        alloc,
        left,
        second.key,
        second.moves,
        true,
        &mut moves,
        steps,
    )?;
    add_products(alloc, left.seed(), first, second, &mut moves)?;
    Ok(Delta { moves })
}
