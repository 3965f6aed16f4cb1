//! Rows that come and go by their keys, and cells that change.
ghost use Rattle.std.specs.Prelude.{◌≡◌, ℕ, ◌<◌, ◌≤◌, ◌+◌, ◌*◌, ◌∷◌, [], not, false, length, filter, option_to_list, IfSome, IsTrue};
ghost use Rattle.std.specs.List.{AllByRecursion};
ghost use Rattle.std.specs.Vec.{vec_len, vec_capacity};
ghost use Rattle.ss_text.specs.Texts.{row_eq};
ghost use Rattle.ss_text.specs.Places.{changed_where};
ghost use Rattle.ss_text.specs.Ascending.{with_element};
ghost use Rattle.flow_law.specs.Lines.{with_cell_at};
ghost use Rattle.row_shelves.specs.Stocks.{Stock, by_stock, has_key, changed};
ghost use Rattle.row_shelves.specs.Shelves.{all_rows, AreShelves, IsShelf};
ghost use Rattle.row_shelves.specs.Blanks.{IsNewShelf, AreSupplied, surplus};

use crate::change::{insert_at, remove_at, set_cell_at};
use crate::coming::take_new;
use crate::find::find;
use crate::room::cut_full;
use crate::{KeptRow, RowShelf};
use ss_text::{Row, Text};

/// Puts a row in its place whose key no row has. A new shelf is taken where there is none, or where one gets full.
pub(crate) fn put(shelves: &mut Vec<RowShelf>, row: KeptRow, new: &mut Vec<RowShelf>)
    requires shelves { AreShelves shelves.old.items }
    requires absent { has_key row.key (all_rows shelves.old.items) ≡ false }
    requires new { AllByRecursion IsNewShelf new.old.items }
    requires supply { AreSupplied shelves.old new.old 1 }
    ensures rows { all_rows shelves.new.items ≡ with_element by_stock row (all_rows shelves.old.items) }
    ensures shelves { AreShelves shelves.new.items }
    ensures new { AllByRecursion IsNewShelf new.new.items }
    ensures supply { (n : ℕ) → AreSupplied shelves.old new.old (n + 1) → AreSupplied shelves.new new.new n }
{
    let count = shelves.len();
    if count == 0 {
        put_first(shelves, row, take_new(new));
        return;
    }
    put_on(shelves, row, new);
}

fn put_first(shelves: &mut Vec<RowShelf>, row: KeptRow, mut new: RowShelf)
    requires none { vec_len shelves.old ≡ 0 }
    requires room { vec_len shelves.old < vec_capacity shelves.old }
    requires new { IsNewShelf new }
    ensures rows { all_rows shelves.new.items ≡ row ∷ [] }
    ensures shelves { AreShelves shelves.new.items }
    ensures none { surplus shelves.new.items ≡ 0 }
    ensures count { vec_len shelves.new ≡ vec_len shelves.old + 1 }
    ensures capacity { vec_capacity shelves.new ≡ vec_capacity shelves.old }
{
    new.push(row);
    shelves.push_reserved(new);
}

fn put_on(shelves: &mut Vec<RowShelf>, row: KeptRow, new: &mut Vec<RowShelf>)
    requires shelves { AreShelves shelves.old.items }
    requires some { 0 < length shelves.old.items }
    requires absent { has_key row.key (all_rows shelves.old.items) ≡ false }
    requires new { AllByRecursion IsNewShelf new.old.items }
    requires supply { AreSupplied shelves.old new.old 1 }
    ensures rows { all_rows shelves.new.items ≡ with_element by_stock row (all_rows shelves.old.items) }
    ensures shelves { AreShelves shelves.new.items }
    ensures new { AllByRecursion IsNewShelf new.new.items }
    ensures cost { surplus shelves.new.items + 32 * vec_len new.old ≤ surplus shelves.old.items + 1 + 32 * vec_len new.new }
    ensures count { vec_len shelves.new + vec_len new.new ≡ vec_len shelves.old + vec_len new.old }
    ensures one { vec_len new.old ≤ vec_len new.new + 1 }
    ensures fewer { vec_len new.new ≤ vec_len new.old }
    ensures capacity { vec_capacity shelves.new ≡ vec_capacity shelves.old }
    ensures new_capacity { vec_capacity new.new ≡ vec_capacity new.old }
{
    let Err(spot) = find(shelves, row.key()) else {
        unreachable!()
    };
    insert_at(shelves, spot, row);
    cut_full(shelves, spot.shelf, new);
}

/// Takes the row of a key out, and answers its shelf where that gets empty.
pub(crate) fn take_key(shelves: &mut Vec<RowShelf>, key: &Row) -> Option<RowShelf>
    requires shelves { AreShelves shelves.old.items }
    requires there { IsTrue (has_key key.now (all_rows shelves.old.items)) }
    ensures rows { all_rows shelves.new.items ≡ filter (λ (r : Stock). not (row_eq key.now r.key)) (all_rows shelves.old.items) }
    ensures shelves { AreShelves shelves.new.items }
    ensures emptied { IfSome result IsNewShelf }
    ensures surplus { surplus shelves.new.items ≤ surplus shelves.old.items }
    ensures count { vec_len shelves.new + length (option_to_list result) ≡ vec_len shelves.old }
    ensures capacity { vec_capacity shelves.new ≡ vec_capacity shelves.old }
{
    let Ok(spot) = find(shelves, key) else {
        unreachable!()
    };
    remove_at(shelves, spot)
}

/// Takes all rows out, and answers the last shelf, if there is one.
pub(crate) fn clear(shelves: &mut Vec<RowShelf>) -> Option<RowShelf>
    requires { AreShelves shelves.old.items }
    ensures none { shelves.new.items ≡ [] }
    ensures emptied { IfSome result IsNewShelf }
    ensures some { 0 < vec_len shelves.old → 0 < length (option_to_list result) }
    ensures count { length (option_to_list result) ≤ vec_len shelves.old }
    ensures capacity { vec_capacity shelves.new ≡ vec_capacity shelves.old }
{
    let last = shelves.pop();
    shelves.clear();
    cleared(last)
}

// A shelf without its rows.
fn cleared(shelf: Option<RowShelf>) -> Option<RowShelf>
    requires { IfSome shelf IsShelf }
    ensures new { IfSome result IsNewShelf }
    ensures count { length (option_to_list result) ≡ length (option_to_list shelf) }
{
    match shelf {
        Some(mut shelf) => {
            shelf.clear();
            Some(shelf)
        }
        None => None,
    }
}

/// Gives a cell of the row of a key another value.
pub(crate) fn set_key(shelves: &mut Vec<RowShelf>, key: &Row, column: usize, value: Text)
    requires shelves { AreShelves shelves.old.items }
    requires there { IsTrue (has_key key.now (all_rows shelves.old.items)) }
    requires cells { AllByRecursion (λ (r : Stock). column < length r.cells) (all_rows shelves.old.items) }
    ensures rows { all_rows shelves.new.items ≡ changed_where (λ (r : Stock). row_eq key.now r.key) (changed (with_cell_at column value)) (all_rows shelves.old.items) }
    ensures shelves { AreShelves shelves.new.items }
    ensures surplus { surplus shelves.new.items ≡ surplus shelves.old.items }
    ensures count { vec_len shelves.new ≡ vec_len shelves.old }
    ensures capacity { vec_capacity shelves.new ≡ vec_capacity shelves.old }
{
    let Ok(spot) = find(shelves, key) else {
        unreachable!()
    };
    set_cell_at(shelves, spot, column, value);
}
