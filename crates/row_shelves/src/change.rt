//! Changes at a spot, none of which takes memory.
ghost use Rattle.std.specs.Prelude.{◌≡◌, ◌<◌, ◌≤◌, ◌+◌, length, insert, remove, drop, take, suc, option_to_list, IfSome};
ghost use Rattle.std.specs.List.{AllByRecursion};
ghost use Rattle.std.specs.Vec.{vec_len, vec_capacity};
ghost use Rattle.ss_text.specs.Places.{at_place};
ghost use Rattle.flow_law.specs.Lines.{with_cell_at};
ghost use Rattle.row_shelves.specs.Stocks.{changed};
ghost use Rattle.row_shelves.specs.Shelves.{all_rows, place_of, IsOn, IsAt, IsShelf, FilledAt, RoomAt, HasCellAt};
ghost use Rattle.row_shelves.specs.Blanks.{IsNewShelf, surplus};

use crate::spot::Spot;
use crate::{KeptRow, RowShelf};
use ss_text::Text;

/// Puts a row at a spot, which may leave its shelf full.
pub(crate) fn insert_at(shelves: &mut Vec<RowShelf>, spot: Spot, row: KeptRow)
    requires there { spot.shelf < length shelves.old.items }
    requires at { IsAt shelves.old.items spot }
    requires shelves { AllByRecursion IsShelf shelves.old.items }
    ensures rows { all_rows shelves.new.items ≡ insert (all_rows shelves.old.items) (place_of shelves.old.items spot) row }
    ensures before { AllByRecursion IsShelf (take spot.shelf shelves.new.items) }
    ensures here { FilledAt shelves.new.items spot.shelf }
    ensures behind { AllByRecursion IsShelf (drop (suc spot.shelf) shelves.new.items) }
    ensures surplus { surplus shelves.new.items ≤ surplus shelves.old.items + 1 }
    ensures count { vec_len shelves.new ≡ vec_len shelves.old }
    ensures capacity { vec_capacity shelves.new ≡ vec_capacity shelves.old }
{
    let shelf = &mut shelves[spot.shelf];
    shelf.insert(spot.place, row);
}

// Takes the row at a spot out, which may leave its shelf empty.
fn take_row(shelves: &mut Vec<RowShelf>, spot: Spot)
    requires on { IsOn shelves.old.items spot }
    requires shelves { AllByRecursion IsShelf shelves.old.items }
    ensures rows { all_rows shelves.new.items ≡ remove (all_rows shelves.old.items) (place_of shelves.old.items spot) }
    ensures before { AllByRecursion IsShelf (take spot.shelf shelves.new.items) }
    ensures here { RoomAt shelves.new.items spot.shelf }
    ensures behind { AllByRecursion IsShelf (drop (suc spot.shelf) shelves.new.items) }
    ensures surplus { surplus shelves.new.items ≤ surplus shelves.old.items }
    ensures count { vec_len shelves.new ≡ vec_len shelves.old }
    ensures capacity { vec_capacity shelves.new ≡ vec_capacity shelves.old }
{
    let shelf = &mut shelves[spot.shelf];
    shelf.remove(spot.place);
}

// Takes a shelf away if it is empty.
fn take_empty(shelves: &mut Vec<RowShelf>, place: usize) -> Option<RowShelf>
    requires there { place < length shelves.old.items }
    requires before { AllByRecursion IsShelf (take place shelves.old.items) }
    requires here { RoomAt shelves.old.items place }
    requires behind { AllByRecursion IsShelf (drop (suc place) shelves.old.items) }
    ensures rows { all_rows shelves.new.items ≡ all_rows shelves.old.items }
    ensures shelves { AllByRecursion IsShelf shelves.new.items }
    ensures emptied { IfSome result IsNewShelf }
    ensures surplus { surplus shelves.new.items ≤ surplus shelves.old.items }
    ensures count { vec_len shelves.new + length (option_to_list result) ≡ vec_len shelves.old }
    ensures capacity { vec_capacity shelves.new ≡ vec_capacity shelves.old }
{
    let count = shelves[place].len();
    if count > 0 {
        return None;
    }
    Some(shelves.remove(place))
}

/// Takes the row at a spot out, and answers its shelf where that gets empty.
pub(crate) fn remove_at(shelves: &mut Vec<RowShelf>, spot: Spot) -> Option<RowShelf>
    requires on { IsOn shelves.old.items spot }
    requires shelves { AllByRecursion IsShelf shelves.old.items }
    ensures rows { all_rows shelves.new.items ≡ remove (all_rows shelves.old.items) (place_of shelves.old.items spot) }
    ensures shelves { AllByRecursion IsShelf shelves.new.items }
    ensures emptied { IfSome result IsNewShelf }
    ensures surplus { surplus shelves.new.items ≤ surplus shelves.old.items }
    ensures count { vec_len shelves.new + length (option_to_list result) ≡ vec_len shelves.old }
    ensures capacity { vec_capacity shelves.new ≡ vec_capacity shelves.old }
{
    take_row(shelves, spot);
    take_empty(shelves, spot.shelf)
}

/// Gives a cell of the row at a spot another value.
pub(crate) fn set_cell_at(shelves: &mut Vec<RowShelf>, spot: Spot, column: usize, value: Text)
    requires on { IsOn shelves.old.items spot }
    requires cell { HasCellAt shelves.old.items spot column }
    requires shelves { AllByRecursion IsShelf shelves.old.items }
    ensures rows { all_rows shelves.new.items ≡ at_place (place_of shelves.old.items spot) (changed (with_cell_at column value)) (all_rows shelves.old.items) }
    ensures shelves { AllByRecursion IsShelf shelves.new.items }
    ensures surplus { surplus shelves.new.items ≡ surplus shelves.old.items }
    ensures count { vec_len shelves.new ≡ vec_len shelves.old }
    ensures capacity { vec_capacity shelves.new ≡ vec_capacity shelves.old }
{
    let shelf = &mut shelves[spot.shelf];
    shelf.set_cell(spot.place, column, value);
}
