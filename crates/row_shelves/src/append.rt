//! Rows that come in order, as where a table is built.
ghost use Rattle.std.specs.Prelude.{◌≡◌, ◌<◌, ◌∷◌, ◌++◌, ◌-◌, [], length, OnOk, OnErr, IsTrue};
ghost use Rattle.std.specs.List.{AllByRecursion};
ghost use Rattle.row_shelves.specs.Shelves.{all_rows, IsShelf, OpenAt};

use crate::row_shelf::FULL;
use crate::{KeptRow, RowShelf};
use ss_text::NoMemory;
use std::alloc::Global;

/// So many places of a shelf stay free where rows come in order: rows that come between them later find room, where a
/// full shelf would be cut in two by the first of them.
const SPARE: usize = FULL / 8;

/// Adds a row behind all others: on the last shelf, or on a new one where the last has few places left.
pub(crate) fn append(
    alloc: Global,
    shelves: &mut Vec<RowShelf>,
    row: KeptRow,
) -> Result<(), NoMemory>
    requires { AllByRecursion IsShelf shelves.old.items }
    ensures ok { OnOk result (all_rows shelves.new.items ≡ all_rows shelves.old.items ++ row ∷ []) }
    ensures err { OnErr result (all_rows shelves.new.items ≡ all_rows shelves.old.items) }
    ensures shelves { AllByRecursion IsShelf shelves.new.items }
{
    if ends_open(shelves) {
        append_last(shelves, row);
        return Ok(());
    }
    append_shelf(alloc, shelves, row)?;
    Ok(())
}

// Whether the last shelf has room for more rows than are spared.
fn ends_open(shelves: &[RowShelf]) -> bool
    ensures some { IsTrue result → 0 < length shelves.now }
    ensures room { IsTrue result → OpenAt shelves.now (length shelves.now - 1) }
{
    let count = shelves.len();
    if count == 0 {
        return false;
    }
    let shelf = &shelves[count - 1];
    shelf.capacity() - shelf.len() > SPARE
}

fn append_last(shelves: &mut Vec<RowShelf>, row: KeptRow)
    requires shelves { AllByRecursion IsShelf shelves.old.items }
    requires there { 0 < length shelves.old.items }
    requires room { OpenAt shelves.old.items (length shelves.old.items - 1) }
    ensures rows { all_rows shelves.new.items ≡ all_rows shelves.old.items ++ row ∷ [] }
    ensures shelves { AllByRecursion IsShelf shelves.new.items }
{
    let last = shelves.len() - 1;
    let shelf = &mut shelves[last];
    shelf.push(row);
}

fn append_shelf(alloc: Global, shelves: &mut Vec<RowShelf>, row: KeptRow) -> Result<(), NoMemory>
    requires { AllByRecursion IsShelf shelves.old.items }
    ensures ok { OnOk result (all_rows shelves.new.items ≡ all_rows shelves.old.items ++ row ∷ []) }
    ensures err { OnErr result (all_rows shelves.new.items ≡ all_rows shelves.old.items) }
    ensures shelves { AllByRecursion IsShelf shelves.new.items }
{
    shelves.reserve(1)?;
    let mut shelf = RowShelf::new(alloc)?;
    shelf.push(row);
    shelves.push_reserved(shelf);
    Ok(())
}
