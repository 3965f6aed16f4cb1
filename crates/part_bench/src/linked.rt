//! Rows that come and go one after another among kept rows that are linked.
ghost use Rattle.std.specs.Prelude.{◌≡◌, ◌≤◌, length, vec_len};
ghost use Rattle.row_links.specs.Live.{LinkedRows};

use crate::made::{one, row, rows};
use row_links::Linked;
use ss_text::{NoMemory, Row, Seed};
use std::alloc::Global;

/// How many rows are left of so many kept ones after so many changes, by which a row comes and goes in turn.
pub(crate) fn left(alloc: Global, kept: u32, changes: u32) -> Result<usize, NoMemory> {
    let mut linked = by_first_cell(alloc)?;
    let moved = move_rows(alloc, &mut linked, kept, changes);
    let count = linked.count();
    drop(linked);
    moved?;
    Ok(count)
}

// Adds the kept rows, and makes the changes.
fn move_rows(alloc: Global, linked: &mut Linked, kept: u32, changes: u32) -> Result<(), NoMemory> {
    come(alloc, linked, rows(alloc, kept)?)?;
    for number in 0..changes {
        let key = number / 2 % kept.max(1);
        if number % 2 == 0 {
            come(alloc, linked, one(alloc, key, kept)?)?;
        } else {
            go(linked, row(alloc, key, kept)?);
        }
    }
    Ok(())
}

fn by_first_cell(alloc: Global) -> Result<Linked, NoMemory> {
    let mut key = Vec::new(alloc);
    key.push(0usize)?;
    let mut keys = Vec::new(alloc);
    keys.push(key)?;
    Ok(Linked::new(alloc, Seed::fixed(), keys))
}

// Adds these rows.
fn come(alloc: Global, linked: &mut Linked, rows: Vec<Row>) -> Result<(), NoMemory> {
    let count = rows.len();
    linked.reserve(alloc, rows)?;
    add_waiting(linked, count);
    Ok(())
}

// Takes the first row that equals this one away.
fn go(linked: &mut Linked, row: Row) {
    linked.take_first(&row);
    drop(row);
}

// Adds so many of the rows that wait.
#[tactic(auto, using(row_links::proofs::Places::one_added))]
fn add_waiting(linked: &mut Linked, count: usize)
    requires { count ≤ length linked.old.waiting }
{
    for _ in 0..count {
        linked.add();
    }
}
