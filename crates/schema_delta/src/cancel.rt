//! Rows without others.
ghost use Rattle.std.specs.Prelude.{◌≡◌, ◌+◌, ◌-◌, ◌<◌, ℕ, IfOk, OnOk};
ghost use Rattle.ss_text.specs.Texts.{Row as RowValue};
ghost use Rattle.row_links.specs.Live.{LinkedRows};
ghost use Rattle.operator_law.specs.Bags.{weigh, is};
ghost use Rattle.join_delta.specs.Walks.{rows_of};
ghost use Rattle.schema_delta.specs.Cancelled.{Apart};

use row_links::Linked;
use ss_text::{NoMemory, Row, Seed};
use std::alloc::Global;

// Takes one of the others away that equals the row, or keeps the row.
fn keep(others: &mut Linked, row: Row, kept: &mut Vec<Row>) -> Result<(), NoMemory>
    ensures all { OnOk result ((f : RowValue → ℕ) → weigh f kept.new.items + weigh f (rows_of others.old.live) ≡ weigh f kept.old.items + f row + weigh f (rows_of others.new.live)) }
    ensures apart { OnOk result (Apart kept.old.items (rows_of others.old.live) → Apart kept.new.items (rows_of others.new.live)) }
{
    if others.take_first(&row) {
        return Ok(());
    }
    kept.push(row)?;
    Ok(())
}

// These rows, each to be found by its cells, which are hashed by a seed.
fn found_rows(alloc: Global, seed: Seed, rows: Vec<Row>) -> Result<Linked, NoMemory>
    ensures { IfOk result (λ found. rows_of found.live ≡ rows.items) }
{
    let mut rows = rows;
    let found = Linked::of_rows(alloc, seed, &mut rows)?;
    Ok(found)
}

/// Rows without others: each as often as it is there more often than among the others.
pub(crate) fn without(
    alloc: Global,
    seed: Seed,
    rows: Vec<Row>,
    others: Vec<Row>,
) -> Result<Vec<Row>, NoMemory>
    ensures { IfOk result (λ kept. (r : RowValue) → weigh (is r) kept.items ≡ weigh (is r) rows.items - weigh (is r) others.items) }
{
    let mut found = found_rows(alloc, seed, others)?;
    let mut kept = Vec::new(alloc);
    for row in rows {
        keep(&mut found, row, &mut kept)?;
    }
    Ok(kept)
}
