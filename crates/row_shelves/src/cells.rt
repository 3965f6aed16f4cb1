//! Cells of all rows of a shelf.
ghost use Rattle.std.specs.Prelude.{◌≡◌, ℕ, map, OnOk};
ghost use Rattle.std.specs.List.{All};
ghost use Rattle.std.specs.Vec.{vec_len, vec_capacity};
ghost use Rattle.flow_law.specs.Lines.{with_empty_cell, without_cell};
ghost use Rattle.row_shelves.specs.Stocks.{rows_of, changed, Has, HasSpace, HasCell};

use crate::KeptRow;
use ss_text::NoMemory;

/// Takes the memory for so many cells of each row.
pub(crate) fn widen_rows(rows: &mut Vec<KeptRow>, bound: usize) -> Result<(), NoMemory>
    ensures same { rows_of rows.new.items ≡ rows_of rows.old.items }
    ensures count { vec_len rows.new ≡ vec_len rows.old }
    ensures capacity { vec_capacity rows.new ≡ vec_capacity rows.old }
    ensures grows { (n : ℕ) → All (Has n) rows.old.items → All (Has n) rows.new.items }
    ensures room { OnOk result (All (Has bound) rows.new.items) }
{
    for row in rows.iter_mut() {
        row.make_room(bound)?;
    }
    Ok(())
}

/// Puts an empty cell into each row, at this place.
pub(crate) fn insert_cells(rows: &mut Vec<KeptRow>, place: usize)
    requires { All (HasSpace place) rows.old.items }
    ensures rows { rows.new.items ≡ map (changed (with_empty_cell place)) rows.old.items }
    ensures count { vec_len rows.new ≡ vec_len rows.old }
    ensures capacity { vec_capacity rows.new ≡ vec_capacity rows.old }
{
    for row in rows.iter_mut() {
        row.insert_cell(place);
    }
}

/// Takes the cell at this place out of each row.
pub(crate) fn remove_cells(rows: &mut Vec<KeptRow>, place: usize)
    requires { All (HasCell place) rows.old.items }
    ensures rows { rows.new.items ≡ map (changed (without_cell place)) rows.old.items }
    ensures count { vec_len rows.new ≡ vec_len rows.old }
    ensures capacity { vec_capacity rows.new ≡ vec_capacity rows.old }
{
    for row in rows.iter_mut() {
        row.remove_cell(place);
    }
}
