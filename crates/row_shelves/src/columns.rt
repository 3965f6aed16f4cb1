//! Columns of all rows.
ghost use Rattle.std.specs.Prelude.{◌≡◌, ◌<◌, ◌≤◌, ℕ, map, length, OnOk};
ghost use Rattle.std.specs.List.{All, AllByRecursion};
ghost use Rattle.std.specs.Vec.{vec_len, vec_capacity};
ghost use Rattle.flow_law.specs.Lines.{with_empty_cell, without_cell};
ghost use Rattle.row_shelves.specs.Stocks.{rows_of, changed, Has, HasSpace, HasCell};
ghost use Rattle.row_shelves.specs.Shelves.{all_rows, AreShelves, seen_shelf, shelf_changed, same_shelf, on_shelf};
ghost use Rattle.row_shelves.specs.Blanks.{surplus};

use crate::RowShelf;
use ss_text::NoMemory;

// Takes the memory for so many cells of each row, shelf by shelf.
fn widen_each(shelves: &mut Vec<RowShelf>, bound: usize) -> Result<(), NoMemory>
    ensures same { map same_shelf shelves.new.items ≡ map same_shelf shelves.old.items }
    ensures grows { (n : ℕ) → All (λ s. All (Has n) (on_shelf s)) shelves.old.items → All (λ s. All (Has n) (on_shelf s)) shelves.new.items }
    ensures room { OnOk result (All (λ s. All (Has bound) (on_shelf s)) shelves.new.items) }
    ensures count { vec_len shelves.new ≡ vec_len shelves.old }
    ensures capacity { vec_capacity shelves.new ≡ vec_capacity shelves.old }
{
    for shelf in shelves.iter_mut() {
        shelf.widen(bound)?;
    }
    Ok(())
}

/// Takes the memory for so many cells of each row.
pub(crate) fn widen(shelves: &mut Vec<RowShelf>, bound: usize) -> Result<(), NoMemory>
    requires { AreShelves shelves.old.items }
    ensures rows { rows_of (all_rows shelves.new.items) ≡ rows_of (all_rows shelves.old.items) }
    ensures shelves { AreShelves shelves.new.items }
    ensures grows { (n : ℕ) → AllByRecursion (Has n) (all_rows shelves.old.items) → AllByRecursion (Has n) (all_rows shelves.new.items) }
    ensures room { OnOk result (AllByRecursion (Has bound) (all_rows shelves.new.items)) }
    ensures surplus { surplus shelves.new.items ≡ surplus shelves.old.items }
    ensures count { vec_len shelves.new ≡ vec_len shelves.old }
    ensures capacity { vec_capacity shelves.new ≡ vec_capacity shelves.old }
{
    widen_each(shelves, bound)?;
    Ok(())
}

fn insert_each(shelves: &mut Vec<RowShelf>, place: usize)
    requires { All (λ s. All (HasSpace place) (on_shelf s)) shelves.old.items }
    ensures seen { map seen_shelf shelves.new.items ≡ map (shelf_changed (changed (with_empty_cell place))) (map seen_shelf shelves.old.items) }
    ensures count { vec_len shelves.new ≡ vec_len shelves.old }
    ensures capacity { vec_capacity shelves.new ≡ vec_capacity shelves.old }
{
    for shelf in shelves.iter_mut() {
        shelf.insert_cells(place);
    }
}

/// Puts an empty cell into each row, at this place, for which there is room.
pub(crate) fn insert_column(shelves: &mut Vec<RowShelf>, place: usize)
    requires shelves { AreShelves shelves.old.items }
    requires space { AllByRecursion (HasSpace place) (all_rows shelves.old.items) }
    ensures rows { all_rows shelves.new.items ≡ map (changed (with_empty_cell place)) (all_rows shelves.old.items) }
    ensures shelves { AreShelves shelves.new.items }
    ensures surplus { surplus shelves.new.items ≡ surplus shelves.old.items }
    ensures count { vec_len shelves.new ≡ vec_len shelves.old }
    ensures capacity { vec_capacity shelves.new ≡ vec_capacity shelves.old }
{
    insert_each(shelves, place);
}

fn remove_each(shelves: &mut Vec<RowShelf>, place: usize)
    requires { All (λ s. All (HasCell place) (on_shelf s)) shelves.old.items }
    ensures seen { map seen_shelf shelves.new.items ≡ map (shelf_changed (changed (without_cell place))) (map seen_shelf shelves.old.items) }
    ensures count { vec_len shelves.new ≡ vec_len shelves.old }
    ensures capacity { vec_capacity shelves.new ≡ vec_capacity shelves.old }
{
    for shelf in shelves.iter_mut() {
        shelf.remove_cells(place);
    }
}

/// Takes the cell at this place out of each row.
pub(crate) fn remove_column(shelves: &mut Vec<RowShelf>, place: usize)
    requires shelves { AreShelves shelves.old.items }
    requires cells { AllByRecursion (HasCell place) (all_rows shelves.old.items) }
    ensures rows { all_rows shelves.new.items ≡ map (changed (without_cell place)) (all_rows shelves.old.items) }
    ensures shelves { AreShelves shelves.new.items }
    ensures surplus { surplus shelves.new.items ≡ surplus shelves.old.items }
    ensures count { vec_len shelves.new ≡ vec_len shelves.old }
    ensures capacity { vec_capacity shelves.new ≡ vec_capacity shelves.old }
{
    remove_each(shelves, place);
}
