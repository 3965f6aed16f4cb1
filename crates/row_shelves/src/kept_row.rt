//! A row of a table.
ghost use Rattle.std.specs.Prelude.{◌≡◌, ◌<◌, ◌≤◌, [], length, replicate, OnOk};
ghost use Rattle.std.specs.Vec.{vec_capacity};
ghost use Rattle.ss_text.specs.Texts.{row_cmp};
ghost use Rattle.flow_law.specs.Lines.{with_empty_cell, with_cell_at, without_cell};
ghost use Rattle.row_shelves.specs.Stocks.{stock, changed};
ghost use Rattle.row_shelves.specs.Fronts.{IsFrontOf};

use crate::sought::SoughtKey;
use ss_text::{NoMemory, Row, Text, first_front};
use std::cmp::Ordering;
use std::marker::Model;

/// A key, and a cell for each dynamic column. Contracts see how many cells there is room for beside them. The front of
/// the key's first text stands beside it, so that a search reads few keys.
#[derive(Debug, Drop)]
pub struct KeptRow {
    front: u64,
    key: Row,
    cells: Vec<Text>,
}

impl Model for KeptRow {
    ghost use Rattle.std.specs.Vec.{vec_capacity};
    ghost use Rattle.row_shelves.specs.Stocks.{Stock, stock};
    ghost use Rattle.row_shelves.specs.Fronts.{IsFrontOf};

    ghost Value = { Stock };

    ghost view = { λ r. stock r.key r.cells.items (vec_capacity r.cells) };

    ghost invariant = { λ r. IsFrontOf r.front r.key };
}

impl KeptRow {
    /// A row of these cells.
    pub(crate) fn of(key: Row, cells: Vec<Text>) -> KeptRow
        ensures { result ≡ stock key cells.items (vec_capacity cells) }
    {
        KeptRow {
            front: first_front(&key),
            key,
            cells,
        }
    }

    /// A row of so many empty cells, for which there is room.
    pub(crate) fn empty(key: Row, mut cells: Vec<Text>, count: usize) -> KeptRow
        requires none { cells.items ≡ [] }
        requires room { count ≤ vec_capacity cells }
        ensures { result ≡ stock key (replicate count []) (vec_capacity cells) }
    {
        fill(&mut cells, count);
        KeptRow::of(key, cells)
    }

    /// The front of its key.
    pub(crate) fn front(&self) -> u64
        ensures { IsFrontOf result self.now.key }
    {
        self.front
    }

    /// The constant columns' values, in header order.
    pub fn key(&self) -> &Row
        ensures { result.now ≡ self.now.key }
    {
        &self.key
    }

    /// How its key stands to one that is sought. Where their fronts differ it is not read.
    pub(crate) fn cmp_key(&self, sought: &SoughtKey<'_>) -> Ordering
        ensures { result ≡ row_cmp self.now.key sought.now }
    {
        match self.front.cmp(&sought.front) {
            Ordering::Equal => self.key.cmp(sought.key),
            differs => differs,
        }
    }

    /// The cells, one for each column.
    pub fn cells(&self) -> &[Text]
        ensures { result.now ≡ self.now.cells }
    {
        &self.cells
    }

    /// Takes the memory for so many cells in all.
    pub(crate) fn make_room(&mut self, bound: usize) -> Result<(), NoMemory>
        ensures key { self.new.key ≡ self.old.key }
        ensures cells { self.new.cells ≡ self.old.cells }
        ensures grows { self.old.room ≤ self.new.room }
        ensures room { OnOk result (bound ≤ self.new.room) }
    {
        let count = self.cells.len();
        if bound <= count {
            return Ok(());
        }
        self.cells.reserve(bound - count)?;
        Ok(())
    }

    /// Puts an empty cell at this place, for which there is room.
    pub(crate) fn insert_cell(&mut self, place: usize)
        requires within { place ≤ length self.old.cells }
        requires room { length self.old.cells < self.old.room }
        ensures { self.new ≡ changed (with_empty_cell place) self.old }
    {
        let alloc = *self.cells.allocator();
        let Ok(()) = self.cells.insert(place, Text::empty(alloc)) else {
            unreachable!()
        };
    }

    /// Takes the cell at this place out.
    pub(crate) fn remove_cell(&mut self, place: usize)
        requires { place < length self.old.cells }
        ensures { self.new ≡ changed (without_cell place) self.old }
    {
        self.cells.remove(place);
    }

    /// Gives the cell at this place another value.
    pub(crate) fn set_cell(&mut self, place: usize, value: Text)
        requires { place < length self.old.cells }
        ensures { self.new ≡ changed (with_cell_at place value) self.old }
    {
        self.cells[place] = value;
    }
}

// Puts so many empty cells where there are none, and room for them.
fn fill(cells: &mut Vec<Text>, count: usize)
    requires none { cells.old.items ≡ [] }
    requires room { count ≤ vec_capacity cells.old }
    ensures cells { cells.new.items ≡ replicate count [] }
    ensures room { vec_capacity cells.new ≡ vec_capacity cells.old }
{
    let alloc = *cells.allocator();
    for _ in 0..count {
        cells.push_reserved(Text::empty(alloc));
    }
}
