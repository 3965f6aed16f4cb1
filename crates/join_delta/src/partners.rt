//! The pairs of moves with the kept rows of the other side that have the same key cells.
ghost use Rattle.std.specs.Prelude.{◌≡◌, ◌≤◌, ◌<◌, ◌+◌, [], ◌∷◌, ◌++◌, IfOk, OnOk, map, length, slice_index_or};
ghost use Rattle.std.specs.List.{flat_map, sum_by};
ghost use Rattle.join_delta.specs.Walks.{rows_of};
ghost use Rattle.join_delta.specs.Partners.{paired, beside, pairs_of};

use operator_law::Signed;
use row_links::Linked;
use ss_text::{NoMemory, Row, Steps, Text};
use std::alloc::Global;
use std::sync::ledger::Ledger;

// Copies cells behind others.
fn copy_cells(from: &[Text], into: &mut Vec<Text>) -> Result<(), NoMemory>
    ensures { OnOk result (into.new.items ≡ into.old.items ++ from.now) }
{
    for cell in from {
        into.push(cell.copy()?)?;
    }
    Ok(())
}

/// The row that has the cells of two rows.
pub(crate) fn joined_row(alloc: Global, first: &Row, second: &Row) -> Result<Row, NoMemory>
    ensures { IfOk result (λ row. row ≡ first.now ++ second.now) }
{
    let width = first.cells().len() + second.cells().len();
    let mut cells = Vec::with_capacity(alloc, width)?;
    copy_cells(first.cells(), &mut cells)?;
    copy_cells(second.cells(), &mut cells)?;
    Ok(Row::of(cells))
}

/// Adds a move of the row that has the cells of two rows.
pub(crate) fn add_joined(
    alloc: Global,
    first: &Row,
    second: &Row,
    up: bool,
    out: &mut Vec<Signed>,
) -> Result<(), NoMemory>
    ensures { OnOk result (out.new.items ≡ out.old.items ++ record { row = first.now ++ second.now; up = up } ∷ []) }
{
    let row = joined_row(alloc, first, second)?;
    out.push(Signed { row, up })?;
    Ok(())
}

// Adds the pair of a move and a kept row.
fn add_pair(
    alloc: Global,
    m: &Signed,
    kept: &Row,
    kept_first: bool,
    out: &mut Vec<Signed>,
) -> Result<(), NoMemory>
    ensures { OnOk result (out.new.items ≡ out.old.items ++ paired kept_first m.now kept.now ∷ []) }
{
    if kept_first {
        add_joined(alloc, kept, &m.row, m.up, out)
    } else {
        add_joined(alloc, &m.row, kept, m.up, out)
    }
}

/// Adds the pairs of a move with the kept rows that have its key cells. Each pair is a step.
pub(crate) fn add_kept<L: Ledger>(
    alloc: Global,
    kept: &Linked,
    positions: &[usize],
    m: &Signed,
    kept_first: bool,
    out: &mut Vec<Signed>,
    steps: &mut Steps<L>,
) -> Result<(), NoMemory>
    requires { 0 < length kept.now.keys }
    ensures pairs { let key = slice_index_or kept.now.keys 0 [] in OnOk result (out.new.items ≡ out.old.items ++ pairs_of kept_first key positions.now (rows_of kept.now.live) m.now) }
    ensures cost { let key = slice_index_or kept.now.keys 0 [] in steps.new ≤ steps.old + length (beside key positions.now (rows_of kept.now.live) m.now) }
    ensures rises { steps.old ≤ steps.new }
{
    let mut at = kept.chain_like(0, positions, &m.row);
    while let Some(place) = at {
        add_pair(alloc, m, kept.row(place), kept_first, out)?;
        at = kept.next(place, Some(0), steps);
    }
    Ok(())
}

/// Adds the pairs of each move with the kept rows that have its key cells.
pub(crate) fn add_all_kept<L: Ledger>(
    alloc: Global,
    kept: &Linked,
    positions: &[usize],
    moves: &[Signed],
    kept_first: bool,
    out: &mut Vec<Signed>,
    steps: &mut Steps<L>,
) -> Result<(), NoMemory>
    requires { 0 < length kept.now.keys }
    ensures pairs { let key = slice_index_or kept.now.keys 0 [] in OnOk result (out.new.items ≡ out.old.items ++ flat_map (pairs_of kept_first key positions.now (rows_of kept.now.live)) moves.now) }
    ensures cost { let key = slice_index_or kept.now.keys 0 [] in steps.new ≤ steps.old + sum_by (λ m. length (beside key positions.now (rows_of kept.now.live) m)) moves.now }
    ensures rises { steps.old ≤ steps.new }
{
    for m in moves {
        add_kept(alloc, kept, positions, m, kept_first, out, steps)?;
    }
    Ok(())
}
