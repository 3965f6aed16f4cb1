//! Rows by their keys, with memory for rows and cells to come.
ghost use Rattle.std.specs.Prelude.{◌≡◌, ◌<◌, ◌≤◌, ◌∷◌, ◌++◌, ◌+◌, ◌-◌, [], map, not, false, length, filter, replicate, List, ℕ, IsTrue, OnOk, OnErr};
ghost use Rattle.std.specs.List.{All, AllByRecursion};
ghost use Rattle.std.specs.Map.{lookup};
ghost use Rattle.std.specs.Option.{option_copied};
ghost use Rattle.std.specs.Vec.{vec_len};
ghost use Rattle.std.specs.List.Sorted.{IsStrictlySortedBy};
ghost use Rattle.ss_text.specs.Texts.{Row as RowValue, row_eq, row_cmp};
ghost use Rattle.ss_text.specs.Places.{changed_where};
ghost use Rattle.ss_text.specs.Ascending.{with_element};
ghost use Rattle.flow_law.specs.Tables.{key_of};
ghost use Rattle.flow_law.specs.Lines.{by_key, with_empty_cell, without_cell, with_cell_at};
ghost use Rattle.row_shelves.specs.Stocks.{rows_of};
ghost use Rattle.row_shelves.specs.Shelves.{all_rows};
ghost use Rattle.row_shelves.specs.Blanks.{IsNewRow};
ghost use Rattle.row_shelves.specs.Values.{rows_value, has_row_key};

use crate::append::append;
use crate::columns::{insert_column, remove_column, widen};
use crate::coming::{drop_unused, expect_shelf, take_back};
use crate::find::{cells_of, has};
use crate::put::{clear, put, set_key, take_key};
use crate::{KeptRow, RowShelf};
use ss_text::{NoMemory, Row, Text};
use std::alloc::Global;
use std::marker::Model;

/// Rows in ascending order of their keys. Contracts see them, how many rows there is memory for beside them, and for how
/// many cells each of all these has room.
#[derive(Debug, Drop)]
pub struct RowShelves {
    shelves: Vec<RowShelf>,
    spare: Vec<RowShelf>,
    cells: Vec<Vec<Text>>,
    bound: usize,
}

impl Model for RowShelves {
    ghost use Rattle.std.specs.Vec.{vec_len};
    ghost use Rattle.row_shelves.specs.Stocks.{rows_of};
    ghost use Rattle.row_shelves.specs.Shelves.{all_rows};
    ghost use Rattle.row_shelves.specs.Stocked.{IsStocked};
    ghost use Rattle.row_shelves.specs.Values.{RowsValue, rows_value};

    ghost Value = { RowsValue };

    ghost view = { λ k. rows_value (rows_of (all_rows k.shelves.items)) (vec_len k.cells) k.bound };

    ghost invariant = { λ k. IsStocked k.shelves k.spare k.cells k.bound };
}

impl RowShelves {
    /// No rows, and no memory for any.
    pub fn new(alloc: Global) -> RowShelves
        ensures { result ≡ rows_value [] 0 0 }
    {
        RowShelves {
            shelves: Vec::new(alloc),
            spare: Vec::new(alloc),
            cells: Vec::new(alloc),
            bound: 0,
        }
    }

    /// Adds a row behind all others, where none is to come.
    pub fn push(&mut self, alloc: Global, key: Row, cells: Vec<Text>) -> Result<(), NoMemory>
        requires order { IsStrictlySortedBy row_cmp (map key_of (self.old.rows ++ (key, cells.items) ∷ [])) }
        requires none { self.old.coming ≡ 0 }
        requires no_bound { self.old.bound ≡ 0 }
        ensures ok { OnOk result (self.new ≡ rows_value (self.old.rows ++ (key, cells.items) ∷ []) 0 0) }
        ensures err { OnErr result (self.new ≡ self.old) }
    {
        append(alloc, &mut self.shelves, KeptRow::of(key, cells))?;
        Ok(())
    }

    /// Takes the memory for one row more that will come.
    pub fn expect_row(&mut self, alloc: Global) -> Result<(), NoMemory>
        ensures ok { OnOk result (self.new ≡ rows_value self.old.rows (self.old.coming + 1) self.old.bound) }
        ensures err { OnErr result (self.new ≡ self.old) }
    {
        self.cells.reserve(1)?;
        let cells = Vec::with_capacity(alloc, self.bound)?;
        expect_shelf(alloc, &mut self.shelves, &mut self.spare, self.cells.len())?;
        self.cells.push_reserved(cells);
        Ok(())
    }

    /// Takes the memory for so many cells of each row, and of each that will come.
    pub fn widen(&mut self, bound: usize) -> Result<(), NoMemory>
        requires { self.old.bound ≤ bound }
        ensures ok { OnOk result (self.new ≡ rows_value self.old.rows self.old.coming bound) }
        ensures err { OnErr result (self.new ≡ self.old) }
    {
        widen(&mut self.shelves, bound)?;
        widen_cells(&mut self.cells, bound)?;
        self.bound = bound;
        Ok(())
    }

    /// Adds a row of empty cells, so many as there are columns. It takes no memory.
    pub fn add_row(&mut self, key: Row, columns: usize)
        requires absent { has_row_key key self.old.rows ≡ false }
        requires coming { 0 < self.old.coming }
        requires room { columns ≤ self.old.bound }
        ensures { self.new ≡ rows_value (with_element by_key (key, replicate columns []) self.old.rows) (self.old.coming - 1) self.old.bound }
    {
        let Some(cells) = self.cells.pop() else {
            unreachable!()
        };
        put(
            &mut self.shelves,
            KeptRow::empty(key, cells, columns),
            &mut self.spare,
        );
        drop_unused(&mut self.spare, self.cells.len());
    }

    /// Takes the row of a key out.
    pub fn remove_row(&mut self, key: &Row)
        requires { IsTrue (has_row_key key.now self.old.rows) }
        ensures { self.new ≡ rows_value (filter (λ (r : RowValue × RowValue). not (row_eq key.now r.0)) self.old.rows) self.old.coming self.old.bound }
    {
        let emptied = take_key(&mut self.shelves, key);
        take_back(&self.shelves, &mut self.spare, emptied, self.cells.len());
    }

    /// Gives a cell of the row of a key another value. It takes no memory.
    pub fn set_cell(&mut self, key: &Row, column: usize, value: Text)
        requires there { IsTrue (has_row_key key.now self.old.rows) }
        requires cells { AllByRecursion (λ (r : RowValue × RowValue). column < length r.1) self.old.rows }
        ensures { self.new ≡ rows_value (changed_where (λ (r : RowValue × RowValue). row_eq key.now r.0) (with_cell_at column value) self.old.rows) self.old.coming self.old.bound }
    {
        set_key(&mut self.shelves, key, column, value);
    }

    /// Puts an empty cell into each row at this place, for which there is room. It takes no memory.
    pub fn insert_column(&mut self, place: usize)
        requires within { AllByRecursion (λ (r : RowValue × RowValue). place ≤ length r.1) self.old.rows }
        requires room { AllByRecursion (λ (r : RowValue × RowValue). length r.1 < self.old.bound) self.old.rows }
        ensures { self.new ≡ rows_value (map (with_empty_cell place) self.old.rows) self.old.coming self.old.bound }
    {
        insert_column(&mut self.shelves, place);
    }

    /// Takes the cell at this place out of each row.
    pub fn remove_column(&mut self, place: usize)
        requires { AllByRecursion (λ (r : RowValue × RowValue). place < length r.1) self.old.rows }
        ensures { self.new ≡ rows_value (map (without_cell place) self.old.rows) self.old.coming self.old.bound }
    {
        remove_column(&mut self.shelves, place);
    }

    /// Takes all rows out, and keeps the memory for those to come.
    pub fn clear(&mut self)
        ensures { self.new ≡ rows_value [] self.old.coming self.old.bound }
    {
        let emptied = clear(&mut self.shelves);
        take_back(&self.shelves, &mut self.spare, emptied, self.cells.len());
    }

    /// Gives the memory for rows to come back.
    pub fn forget(&mut self)
        ensures { self.new ≡ rows_value self.old.rows 0 self.old.bound }
    {
        self.cells.clear();
        self.spare.clear();
    }

    /// For how many cells each row, and each that will come, has room.
    pub fn bound(&self) -> usize
        ensures { result ≡ self.now.bound }
    {
        self.bound
    }

    /// Whether a row has the key.
    pub fn has(&self, key: &Row) -> bool
        ensures { result ≡ has_row_key key.now self.now.rows }
    {
        has(&self.shelves, key)
    }

    /// The cells of the row of a key, if there is one. No rows are walked.
    pub fn cells_of(&self, key: &Row) -> Option<&[Text]>
        ensures { option_copied result ≡ lookup (row_eq key.now) self.now.rows }
    {
        cells_of(&self.shelves, key)
    }

    /// Its rows in ascending order, shelf by shelf.
    pub fn shelves(&self) -> &[RowShelf]
        ensures { rows_of (all_rows result.now) ≡ self.now.rows }
    {
        &self.shelves
    }
}

// Takes the memory for so many cells of each row that will come.
fn widen_cells(coming: &mut Vec<Vec<Text>>, bound: usize) -> Result<(), NoMemory>
    ensures grows { (n : ℕ) → All (IsNewRow n) coming.old.items → All (IsNewRow n) coming.new.items }
    ensures room { (n : ℕ) → All (IsNewRow n) coming.old.items → OnOk result (All (IsNewRow bound) coming.new.items) }
    ensures count { vec_len coming.new ≡ vec_len coming.old }
{
    for cells in coming.iter_mut() {
        cells.reserve(bound)?;
    }
    Ok(())
}
