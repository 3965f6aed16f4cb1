//! One kept side, made ready for moves and moved.
ghost use Rattle.std.specs.Prelude.{◌≡◌, ◌≤◌, ◌+◌, ◌++◌, ℕ, List, [], ◌∷◌, length, cond, IfOk, OnOk};
ghost use Rattle.ss_text.specs.Texts.{Row as RowValue};
ghost use Rattle.row_links.specs.Live.{LinkedRows};
ghost use Rattle.operator_law.specs.Bags.{weigh, is, FitsBag, MovesBag};
ghost use Rattle.operator_law.specs.declared.delta.Signed.{Signed as SignedValue};
ghost use Rattle.join_delta.specs.Walks.{rows_of};
ghost use Rattle.join_delta.specs.Ready.{ups_of, downs_of};

use operator_law::Signed;
use row_links::Linked;
use ss_text::{NoMemory, Row};
use std::alloc::Global;

/// Adds all rows that wait.
pub(crate) fn add_all(kept: &mut Linked, count: usize)
    requires { count ≡ length kept.old.waiting }
    ensures rows { rows_of kept.new.live ≡ rows_of kept.old.live ++ kept.old.waiting }
    ensures keys { kept.new.keys ≡ kept.old.keys }
    ensures none { kept.new.waiting ≡ [] }
{
    for _turn in 0..count {
        kept.add();
    }
}

// Takes these rows away, each of which is there as often as it goes.
fn take_all(kept: &mut Linked, downs: &Vec<Row>)
    requires { (r : RowValue) → weigh (is r) downs.now.items ≤ weigh (is r) (rows_of kept.old.live) }
    ensures moved { (f : RowValue → ℕ) → weigh f (rows_of kept.old.live) ≡ weigh f (rows_of kept.new.live) + weigh f downs.now.items }
    ensures keys { kept.new.keys ≡ kept.old.keys }
    ensures waiting { kept.new.waiting ≡ kept.old.waiting }
{
    for row in downs {
        kept.take_first(row);
    }
}

/// Moves a side by the moves that it was made ready for. This takes no memory.
pub(crate) fn move_side(kept: &mut Linked, ups: usize, downs: &Vec<Row>)
    requires ready { ups ≡ length kept.old.waiting }
    requires fits { (ms : List SignedValue) × (kept.old.waiting ≡ ups_of ms) × (downs.now.items ≡ downs_of ms) × FitsBag (rows_of kept.old.live) ms }
    ensures moved { (ms : List SignedValue) → kept.old.waiting ≡ ups_of ms → downs.now.items ≡ downs_of ms → MovesBag (rows_of kept.old.live) ms (rows_of kept.new.live) }
    ensures keys { kept.new.keys ≡ kept.old.keys }
    ensures none { kept.new.waiting ≡ [] }
{
    add_all(kept, ups);
    take_all(kept, downs);
}

// Copies the row of a move that comes, or of one that goes.
fn copy_if(m: &Signed, up: bool, rows: &mut Vec<Row>) -> Result<(), NoMemory>
    ensures { OnOk result (rows.new.items ≡ rows.old.items ++ cond up (ups_of (m.now ∷ [])) (downs_of (m.now ∷ []))) }
{
    if m.up != up {
        return Ok(());
    }
    rows.push(m.row.copy()?)?;
    Ok(())
}

/// The rows that come, or those that go, copied in their order.
pub fn rows_of_moves(alloc: Global, moves: &[Signed], up: bool) -> Result<Vec<Row>, NoMemory>
    ensures { IfOk result (λ rows. rows.items ≡ cond up (ups_of moves.now) (downs_of moves.now)) }
{
    let mut rows = Vec::new(alloc);
    for m in moves {
        copy_if(m, up, &mut rows)?;
    }
    Ok(rows)
}

/// Takes all memory that moving a side needs, and answers how many rows come and the rows that go. The live rows stay.
pub(crate) fn ready_side(
    alloc: Global,
    kept: &mut Linked,
    moves: &[Signed],
) -> Result<(usize, Vec<Row>), NoMemory>
    ensures ready { OnOk result (kept.new ≡ record kept.old { waiting = ups_of moves.now }) }
    ensures ups { IfOk result (λ r. r.0 ≡ length (ups_of moves.now)) }
    ensures downs { IfOk result (λ r. r.1.items ≡ downs_of moves.now) }
    ensures live { kept.new.live ≡ kept.old.live }
    ensures keys { kept.new.keys ≡ kept.old.keys }
{
    let downs = rows_of_moves(alloc, moves, false)?;
    let ups = rows_of_moves(alloc, moves, true)?;
    let count = ups.len();
    kept.reserve(alloc, ups)?;
    Ok((count, downs))
}
