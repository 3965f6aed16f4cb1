//! Shelves for rows to come, which they share.
ghost use Rattle.std.specs.Prelude.{◌≡◌, ◌<◌, ◌≤◌, ◌+◌, ◌*◌, length, option_to_list, IfSome, IsTrue, OnOk, OnErr};
ghost use Rattle.std.specs.List.{AllByRecursion};
ghost use Rattle.std.specs.Vec.{vec_len, vec_capacity};
ghost use Rattle.row_shelves.specs.Shelves.{IsShelf};
ghost use Rattle.row_shelves.specs.Blanks.{IsNewShelf, AreSupplied};

use crate::RowShelf;
use crate::row_shelf::HALF;
use ss_text::NoMemory;
use std::alloc::Global;

/// Takes a new shelf for one row more that will come, where those that wait are not enough.
pub(crate) fn expect_shelf(
    alloc: Global,
    shelves: &mut Vec<RowShelf>,
    new: &mut Vec<RowShelf>,
    coming: usize,
) -> Result<(), NoMemory>
    requires shelves { AllByRecursion IsShelf shelves.old.items }
    requires new { AllByRecursion IsNewShelf new.old.items }
    requires supply { 0 < coming → AreSupplied shelves.old new.old coming }
    ensures same { shelves.new.items ≡ shelves.old.items }
    ensures new { AllByRecursion IsNewShelf new.new.items }
    ensures ok { OnOk result (AreSupplied shelves.new new.new (coming + 1)) }
    ensures err { OnErr result (0 < coming → AreSupplied shelves.new new.new coming) }
{
    new.reserve(2)?;
    shelves.reserve(new.len() + 1)?;
    if are_enough(shelves, new, coming) {
        return Ok(());
    }
    new.push_reserved(RowShelf::new(alloc)?);
    Ok(())
}

// Whether the new shelves are enough for one row more than will come, if each shelf is as long as it can be.
fn are_enough(shelves: &[RowShelf], new: &[RowShelf], coming: usize) -> bool
    ensures { IsTrue result → 32 * length shelves.now + coming + 33 ≤ 32 * length new.now }
{
    shelves.len() + coming / HALF + 2 <= new.len()
}

/// One of the new shelves.
pub(crate) fn take_new(new: &mut Vec<RowShelf>) -> RowShelf
    requires some { 0 < vec_len new.old }
    requires new { AllByRecursion IsNewShelf new.old.items }
    ensures shelf { IsNewShelf result }
    ensures new { AllByRecursion IsNewShelf new.new.items }
    ensures count { vec_len new.new + 1 ≡ vec_len new.old }
    ensures capacity { vec_capacity new.new ≡ vec_capacity new.old }
{
    let Some(shelf) = new.pop() else {
        unreachable!()
    };
    shelf
}

/// Lets a shelf that got empty wait again, where no other is left and rows will come.
pub(crate) fn take_back(
    shelves: &[RowShelf],
    new: &mut Vec<RowShelf>,
    emptied: Option<RowShelf>,
    coming: usize,
)
    requires shelf { IfSome emptied IsNewShelf }
    requires new { AllByRecursion IsNewShelf new.old.items }
    requires room { 0 < coming → 0 < length (option_to_list emptied) → vec_len new.old < vec_capacity new.old }
    ensures new { AllByRecursion IsNewShelf new.new.items }
    ensures waits { 0 < coming → length shelves.now ≡ 0 → vec_len new.new ≡ vec_len new.old + length (option_to_list emptied) }
    ensures same { 0 < length shelves.now → vec_len new.new ≡ vec_len new.old }
    ensures capacity { vec_capacity new.new ≡ vec_capacity new.old }
{
    let Some(shelf) = emptied else {
        return;
    };
    if shelves.is_empty() {
        push_where(new, shelf, coming);
    }
}

// Lets a shelf wait again where rows will come.
fn push_where(new: &mut Vec<RowShelf>, shelf: RowShelf, coming: usize)
    requires shelf { IsNewShelf shelf }
    requires new { AllByRecursion IsNewShelf new.old.items }
    requires room { 0 < coming → vec_len new.old < vec_capacity new.old }
    ensures new { AllByRecursion IsNewShelf new.new.items }
    ensures waits { 0 < coming → vec_len new.new ≡ vec_len new.old + 1 }
    ensures capacity { vec_capacity new.new ≡ vec_capacity new.old }
{
    if coming > 0 {
        new.push_reserved(shelf);
    }
}

/// Gives the new shelves back where no row will come.
pub(crate) fn drop_unused(new: &mut Vec<RowShelf>, coming: usize)
    requires { AllByRecursion IsNewShelf new.old.items }
    ensures new { AllByRecursion IsNewShelf new.new.items }
    ensures kept { 0 < coming → new.new ≡ new.old }
{
    if coming == 0 {
        new.clear();
    }
}
