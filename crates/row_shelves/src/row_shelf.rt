//! A shelf of rows, with the front of its first row's key beside them.
//!
//! A search for the shelf of a key compares with the first keys of many shelves. Mostly their fronts decide, which stand
//! in the vector of the shelves, so that no row is fetched. What may make another row the first sets the front anew;
//! what changes cells and columns leaves the keys, and so the front.
ghost use Rattle.std.specs.Prelude.{◌≡◌, ◌<◌, ◌≤◌, ◌∷◌, ◌++◌, ◌+◌, [], map, insert, remove, take, drop, length, slice_index_or, IfOk, OnOk, ℕ};
ghost use Rattle.std.specs.List.{All};
ghost use Rattle.std.specs.Vec.{vec_len, vec_capacity};
ghost use Rattle.ss_text.specs.Texts.{row_cmp};
ghost use Rattle.ss_text.specs.Places.{at_place};
ghost use Rattle.flow_law.specs.Lines.{with_empty_cell, with_cell_at, without_cell};
ghost use Rattle.row_shelves.specs.Stocks.{Stock, rows_of, changed, Has, HasSpace, HasCell};
ghost use Rattle.row_shelves.specs.Fronts.{IsFrontOf};
ghost use Rattle.row_shelves.specs.Shelves.{first_key};
ghost use Rattle.row_shelves.specs.Blanks.{IsNewShelf};

use crate::KeptRow;
use crate::cells::{insert_cells, remove_cells, widen_rows};
use crate::sought::SoughtKey;
use ss_text::{NoMemory, Text};
use std::alloc::Global;
use std::cmp::Ordering;
use std::marker::Model;

/// How many rows a shelf has room for.
pub(crate) const FULL: usize = 64;

/// How many rows each half has of a shelf that is cut in two.
pub(crate) const HALF: usize = FULL / 2;

/// Rows in order, and the front of the first one's key, by which the shelf is found. Where there is no row, the front is
/// that of no key. Contracts see the vector of the rows.
#[derive(Debug, Drop)]
pub struct RowShelf {
    front: u64,
    rows: Vec<KeptRow>,
}

impl Model for RowShelf {
    ghost use Rattle.std.specs.Prelude.{Vec};
    ghost use Rattle.std.proofs.Common.{Global};
    ghost use Rattle.row_shelves.specs.Stocks.{Stock};
    ghost use Rattle.row_shelves.specs.Fronts.{IsFrontOf};
    ghost use Rattle.row_shelves.specs.Shelves.{first_key};

    ghost Value = { Vec Stock Global };

    ghost view = { λ s. s.rows };

    ghost invariant = { λ s. IsFrontOf s.front (first_key s.rows) };
}

impl RowShelf {
    /// An empty one with room.
    pub(crate) fn new(alloc: Global) -> Result<RowShelf, NoMemory>
        ensures { IfOk result (λ s. IsNewShelf s) }
    {
        let rows = Vec::with_capacity(alloc, FULL)?;
        Ok(RowShelf { front: 0, rows })
    }

    /// Its rows in ascending order.
    pub fn rows(&self) -> &[KeptRow]
        ensures { result.now ≡ self.now.items }
    {
        &self.rows
    }

    /// How many rows it has.
    pub(crate) fn len(&self) -> usize
        ensures { result ≡ vec_len self.now }
    {
        self.rows.len()
    }

    /// How many rows it has room for.
    pub(crate) fn capacity(&self) -> usize
        ensures { result ≡ vec_capacity self.now }
    {
        self.rows.capacity()
    }

    /// How the key that it begins with stands to one that is sought. Where their fronts differ no row is read.
    pub(crate) fn cmp_first_key(&self, sought: &SoughtKey<'_>) -> Ordering
        ensures { result ≡ row_cmp (first_key self.now) sought.now }
    {
        match self.front.cmp(&sought.front) {
            Ordering::Equal => cmp_first(&self.rows, sought),
            differs => differs,
        }
    }

    /// Puts a row behind the others, for which there is room.
    pub(crate) fn push(&mut self, row: KeptRow)
        requires { vec_len self.old < vec_capacity self.old }
        ensures items { self.new.items ≡ self.old.items ++ row ∷ [] }
        ensures len { vec_len self.new ≡ vec_len self.old + 1 }
        ensures capacity { vec_capacity self.new ≡ vec_capacity self.old }
    {
        self.rows.push_reserved(row);
        self.front = front_of_first(&self.rows);
    }

    /// Moves the rows from a place on to a shelf without any, which has room for them.
    pub(crate) fn cut(&mut self, place: usize, tail: &mut RowShelf)
        requires place { place ≤ vec_len self.old }
        requires none { vec_len tail.old ≡ 0 }
        requires room { vec_len self.old ≤ place + vec_capacity tail.old }
        ensures both { self.new.items ++ tail.new.items ≡ self.old.items }
        ensures len { vec_len self.new ≡ place }
        ensures tail_len { place + vec_len tail.new ≡ vec_len self.old }
        ensures capacity { vec_capacity self.new ≡ vec_capacity self.old }
        ensures tail_capacity { vec_capacity tail.new ≡ vec_capacity tail.old }
    {
        move_rows(&mut self.rows, place, &mut tail.rows);
        self.front = front_of_first(&self.rows);
        tail.front = front_of_first(&tail.rows);
    }

    /// Puts a row at this place, for which there is room.
    pub(crate) fn insert(&mut self, place: usize, row: KeptRow)
        requires place { place ≤ vec_len self.old }
        requires room { vec_len self.old < vec_capacity self.old }
        ensures items { self.new.items ≡ insert self.old.items place row }
        ensures len { vec_len self.new ≡ vec_len self.old + 1 }
        ensures capacity { vec_capacity self.new ≡ vec_capacity self.old }
    {
        let front = row.front();
        let Ok(()) = self.rows.insert(place, row) else {
            unreachable!()
        };
        if place == 0 {
            self.front = front;
        }
    }

    /// Takes the row at this place out.
    pub(crate) fn remove(&mut self, place: usize)
        requires { place < vec_len self.old }
        ensures items { self.new.items ≡ remove self.old.items place }
        ensures len { vec_len self.new + 1 ≡ vec_len self.old }
        ensures capacity { vec_capacity self.new ≡ vec_capacity self.old }
    {
        self.rows.remove(place);
        if place == 0 {
            self.front = front_of_first(&self.rows);
        }
    }

    /// Takes all rows out.
    pub(crate) fn clear(&mut self)
        ensures items { self.new.items ≡ [] }
        ensures capacity { vec_capacity self.new ≡ vec_capacity self.old }
    {
        self.rows.clear();
        self.front = 0;
    }

    /// Gives a cell of the row at this place another value.
    pub(crate) fn set_cell(&mut self, place: usize, column: usize, value: Text)
        requires place { place < vec_len self.old }
        requires cell { (r : Stock) → column < length (slice_index_or self.old.items place r).cells }
        ensures items { self.new.items ≡ at_place place (changed (with_cell_at column value)) self.old.items }
        ensures len { vec_len self.new ≡ vec_len self.old }
        ensures capacity { vec_capacity self.new ≡ vec_capacity self.old }
    {
        let row = &mut self.rows[place];
        row.set_cell(column, value);
    }

    /// Takes the memory for so many cells of each row.
    pub(crate) fn widen(&mut self, bound: usize) -> Result<(), NoMemory>
        ensures same { rows_of self.new.items ≡ rows_of self.old.items }
        ensures count { vec_len self.new ≡ vec_len self.old }
        ensures capacity { vec_capacity self.new ≡ vec_capacity self.old }
        ensures grows { (n : ℕ) → All (Has n) self.old.items → All (Has n) self.new.items }
        ensures room { OnOk result (All (Has bound) self.new.items) }
    {
        widen_rows(&mut self.rows, bound)?;
        Ok(())
    }

    /// Puts an empty cell into each row, at this place.
    pub(crate) fn insert_cells(&mut self, place: usize)
        requires { All (HasSpace place) self.old.items }
        ensures rows { self.new.items ≡ map (changed (with_empty_cell place)) self.old.items }
        ensures count { vec_len self.new ≡ vec_len self.old }
        ensures capacity { vec_capacity self.new ≡ vec_capacity self.old }
    {
        insert_cells(&mut self.rows, place);
    }

    /// Takes the cell at this place out of each row.
    pub(crate) fn remove_cells(&mut self, place: usize)
        requires { All (HasCell place) self.old.items }
        ensures rows { self.new.items ≡ map (changed (without_cell place)) self.old.items }
        ensures count { vec_len self.new ≡ vec_len self.old }
        ensures capacity { vec_capacity self.new ≡ vec_capacity self.old }
    {
        remove_cells(&mut self.rows, place);
    }
}

// Moves the rows from a place on behind those of another vector, which has room for them.
fn move_rows(rows: &mut Vec<KeptRow>, place: usize, tail: &mut Vec<KeptRow>)
    requires place { place ≤ vec_len rows.old }
    requires room { vec_len rows.old + vec_len tail.old ≤ place + vec_capacity tail.old }
    ensures left { rows.new.items ≡ take place rows.old.items }
    ensures moved { tail.new.items ≡ tail.old.items ++ drop place rows.old.items }
    ensures capacity { vec_capacity rows.new ≡ vec_capacity rows.old }
    ensures tail_capacity { vec_capacity tail.new ≡ vec_capacity tail.old }
{
    for row in rows.drain(place..) {
        tail.push_reserved(row);
    }
}

// The front of the first row's key, or of no key.
fn front_of_first(rows: &Vec<KeptRow>) -> u64
    ensures { IsFrontOf result (first_key rows.now) }
{
    match rows.first() {
        Some(row) => row.front(),
        None => 0,
    }
}

// How the first row's key, or no key, stands to one that is sought.
fn cmp_first(rows: &Vec<KeptRow>, sought: &SoughtKey<'_>) -> Ordering
    ensures { result ≡ row_cmp (first_key rows.now) sought.now }
{
    match rows.first() {
        Some(row) => row.cmp_key(sought),
        None if sought.key.cells().is_empty() => Ordering::Equal,
        None => Ordering::Less,
    }
}
