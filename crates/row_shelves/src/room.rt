//! Shelves that are cut in two, with no memory but that of a new shelf.
ghost use Rattle.std.specs.Prelude.{◌≡◌, ◌<◌, ◌≤◌, ◌+◌, ◌*◌, ◌++◌, take, drop, suc, length, min};
ghost use Rattle.std.specs.Vec.{vec_len, vec_capacity};
ghost use Rattle.std.specs.List.{AllByRecursion};
ghost use Rattle.row_shelves.specs.Shelves.{all_rows, FilledAt, LongAt, IsShelf};
ghost use Rattle.row_shelves.specs.Blanks.{IsNewShelf, surplus};

use crate::RowShelf;
use crate::coming::take_new;
use crate::row_shelf::HALF;

// Cuts a long shelf in two: half of what a shelf has room for goes to the new one.
fn split(shelves: &mut Vec<RowShelf>, place: usize, mut tail: RowShelf)
    requires there { place < length shelves.old.items }
    requires long { LongAt shelves.old.items place }
    requires before { AllByRecursion IsShelf (take place shelves.old.items) }
    requires behind { AllByRecursion IsShelf (drop (suc place) shelves.old.items) }
    requires room { vec_len shelves.old < vec_capacity shelves.old }
    requires new { IsNewShelf tail }
    ensures rows { all_rows shelves.new.items ≡ all_rows shelves.old.items }
    ensures shelves { AllByRecursion IsShelf shelves.new.items }
    ensures surplus { surplus shelves.new.items + 32 ≤ surplus shelves.old.items }
    ensures count { vec_len shelves.new ≡ vec_len shelves.old + 1 }
    ensures capacity { vec_capacity shelves.new ≡ vec_capacity shelves.old }
{
    let shelf = &mut shelves[place];
    shelf.cut(shelf.len() - HALF, &mut tail);
    let Ok(()) = shelves.insert(place + 1, tail) else {
        unreachable!()
    };
}

/// Cuts a shelf in two if it is full.
pub(crate) fn cut_full(shelves: &mut Vec<RowShelf>, place: usize, new: &mut Vec<RowShelf>)
    requires there { place < length shelves.old.items }
    requires before { AllByRecursion IsShelf (take place shelves.old.items) }
    requires here { FilledAt shelves.old.items place }
    requires behind { AllByRecursion IsShelf (drop (suc place) shelves.old.items) }
    requires new { AllByRecursion IsNewShelf new.old.items }
    requires enough { min 32 (surplus shelves.old.items) ≤ 32 * vec_len new.old }
    requires room { vec_len shelves.old + vec_len new.old ≤ vec_capacity shelves.old }
    ensures rows { all_rows shelves.new.items ≡ all_rows shelves.old.items }
    ensures shelves { AllByRecursion IsShelf shelves.new.items }
    ensures new { AllByRecursion IsNewShelf new.new.items }
    ensures cost { surplus shelves.new.items + 32 * vec_len new.old ≤ surplus shelves.old.items + 32 * vec_len new.new }
    ensures count { vec_len shelves.new + vec_len new.new ≡ vec_len shelves.old + vec_len new.old }
    ensures one { vec_len new.old ≤ vec_len new.new + 1 }
    ensures fewer { vec_len new.new ≤ vec_len new.old }
    ensures capacity { vec_capacity shelves.new ≡ vec_capacity shelves.old }
    ensures new_capacity { vec_capacity new.new ≡ vec_capacity new.old }
{
    let shelf = &shelves[place];
    let (count, capacity) = (shelf.len(), shelf.capacity());
    if count < capacity {
        return;
    }
    split(shelves, place, take_new(new));
}
