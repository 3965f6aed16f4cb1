//! A table: dynamic columns, and rows in ascending order of their keys.
ghost use Rattle.std.specs.Prelude.{◌≡◌, ◌<◌, [], ◌∷◌, ◌++◌, false, length, slice_index_or, is_ok, IsTrue, IfOk, IfErr, OnOk, OnErr};
ghost use Rattle.ss_text.specs.Texts.{text_cmp, row_cmp, is_in};
ghost use Rattle.ss_text.specs.Keys.{IsPlaceOf, IsPlaceFor};
ghost use Rattle.std.specs.List.Sorted.{IsStrictlySortedBy};
ghost use Rattle.flow_law.specs.Tables.{table_value, empty_table, row_keys, row_at, key_of, cells_of, cell_in, with_last_row};
ghost use Rattle.flow_law.specs.InOrder.{IsTable};
ghost use Rattle.flow_law.specs.Lines.{has_row, has_column, fits_table, table_after, without_row, with_row, without_column, with_column, with_cell};

use crate::TableLine;
use crate::keyed_row::{self, KeyedRow};
use ss_text::{NoMemory, Row, Text};
use std::alloc::Global;
use std::marker::Model;

/// A table, which contracts see as its dynamic columns and the list of its keys with their cells. Columns and
/// keys ascend strictly, and each row has a cell for each column.
#[derive(Debug, Drop)]
pub struct Table {
    columns: Vec<Text>,
    rows: Vec<KeyedRow>,
}

impl Model for Table {
    ghost use Rattle.flow_law.specs.Tables.{TableValue, table_value};

    ghost Value = { TableValue };

    ghost use Rattle.flow_law.specs.InOrder.{IsTable};
    ghost use Rattle.flow_law.specs.KeyedRows.{row_values};

    ghost view = { λ t. table_value t.columns.items (row_values t.rows.items) };

    ghost invariant = { λ t. IsTable (table_value t.columns.items (row_values t.rows.items)) };
}

impl Table {
    /// The table without columns and rows.
    pub(crate) fn new(alloc: Global) -> Table
        ensures { result ≡ empty_table }
    {
        Table {
            columns: Vec::new(alloc),
            rows: Vec::new(alloc),
        }
    }

    /// The table with these columns, which ascend, and without rows.
    pub fn of_columns(columns: Vec<Text>) -> Table
        requires { IsStrictlySortedBy text_cmp columns.items }
        ensures { result ≡ table_value columns.items [] }
    {
        let alloc = *columns.allocator();
        Table {
            columns,
            rows: Vec::new(alloc),
        }
    }

    /// Adds a row after all others, with a cell for each column. After `NoMemory` the table is as before.
    pub fn put_row(&mut self, key: Row, cells: Vec<Text>) -> Result<(), NoMemory>
        requires order { IsStrictlySortedBy row_cmp (row_keys self.old ++ key ∷ []) }
        requires fits { length cells.items ≡ length self.old.columns }
        ensures ok { OnOk result (self.new ≡ with_last_row key cells.items self.old) }
        ensures err { OnErr result (self.new ≡ self.old) }
    {
        self.rows.push(KeyedRow { key, cells })?;
        Ok(())
    }

    /// The dynamic columns, in ascending order.
    pub fn columns(&self) -> &[Text]
        ensures columns { result.now ≡ self.now.columns }
        ensures in_order { IsTable self.now }
    {
        &self.columns
    }

    /// How many rows there are.
    pub fn count(&self) -> usize
        ensures { result ≡ length self.now.rows }
    {
        self.rows.len()
    }

    /// The key of the row at a place, from 0: the constant columns' values in header order.
    pub fn key(&self, place: usize) -> &Row
        requires { place < length self.now.rows }
        ensures { result.now ≡ (row_at place self.now).0 }
    {
        &self.rows[place].key
    }

    /// The cell of the row at a place in the column at a place, both from 0.
    pub fn cell(&self, place: usize, column: usize) -> &Text
        requires row_there { place < length self.now.rows }
        requires column_there { column < length self.now.columns }
        ensures { result.now ≡ slice_index_or (row_at place self.now).1 column [] }
    {
        &self.rows[place].cells[column]
    }

    /// The cells of the row at a place, from 0, one for each column.
    pub fn cells(&self, place: usize) -> &[Text]
        requires { place < length self.now.rows }
        ensures { result.now ≡ (row_at place self.now).1 }
    {
        &self.rows[place].cells
    }

    /// The cells of a key, none where there is no row of it.
    pub fn cells_of(&self, key: &Row) -> &[Text]
        ensures { result.now ≡ cells_of self.now key.now }
    {
        match self.find_row(key) {
            Ok(place) => &self.rows[place].cells,
            Err(_) => &[],
        }
    }

    /// The text of a column among the cells of a row, empty where the column or the cell is missing.
    pub fn cell_in<'a>(&self, cells: &'a [Text], column: &Text) -> &'a [u8]
        ensures { result.now ≡ cell_in self.now.columns cells.now column.now }
    {
        let Ok(place) = self.find_column(column) else {
            return &[];
        };
        match cells.get(place) {
            Some(cell) => cell.as_slice(),
            None => &[],
        }
    }

    /// Whether there is a row of this key.
    pub fn has_row(&self, key: &Row) -> bool
        ensures { result ≡ has_row key.now self.now }
    {
        self.find_row(key).is_ok()
    }

    /// Whether there is a dynamic column of this label.
    pub fn has_column(&self, column: &Text) -> bool
        ensures { result ≡ has_column column.now self.now }
    {
        self.find_column(column).is_ok()
    }

    // The place of a key, or where a row of this key would stand.
    fn find_row(&self, key: &Row) -> Result<usize, usize>
        ensures there { is_ok result ≡ has_row key.now self.now }
        ensures found { IfOk result (IsPlaceOf key_of key.now self.now.rows) }
        ensures absent { IfErr result (IsPlaceFor row_cmp key_of key.now self.now.rows) }
    {
        self.rows.binary_search_by(|row| row.key.cmp(key))
    }

    // The place of a column, or where it would stand.
    fn find_column(&self, column: &Text) -> Result<usize, usize>
        ensures there { is_ok result ≡ has_column column.now self.now }
        ensures found { IfOk result (IsPlaceOf (λ c. c) column.now self.now.columns) }
        ensures absent { IfErr result (IsPlaceFor text_cmp (λ c. c) column.now self.now.columns) }
        ensures in_order { IsTable self.now }
    {
        self.columns.binary_search(column)
    }

    /// Whether a line that names a row or a column fits this table.
    pub(crate) fn fits(&self, line: &TableLine) -> bool
        ensures { result ≡ fits_table line.now self.now }
    {
        match line {
            TableLine::TableMinus { .. } | TableLine::TablePlus { .. } => true,
            TableLine::RowMinus { key, .. } => self.has_row(key),
            TableLine::ColumnMinus { column, .. } => self.has_column(column),
            TableLine::ColumnPlus { column, .. } => !self.has_column(column),
            TableLine::RowPlus { key, .. } => !self.has_row(key),
            TableLine::Cell { key, column, .. } => self.has_row(key) && self.has_column(column),
        }
    }

    /// Makes the step of a line of this table, which names a row or a column.
    pub(crate) fn change(&mut self, line: &TableLine) -> Result<(), NoMemory>
        requires { IsTrue (fits_table line.now self.old) }
        ensures ok { OnOk result (self.new ≡ table_after line.now self.old) }
        ensures err { OnErr result (self.new ≡ self.old) }
    {
        match line {
            TableLine::TableMinus { .. } | TableLine::TablePlus { .. } => Ok(()),
            TableLine::RowMinus { key, .. } => {
                self.remove_row(key);
                Ok(())
            }
            TableLine::ColumnMinus { column, .. } => {
                self.remove_column(column);
                Ok(())
            }
            TableLine::ColumnPlus { column, .. } => self.add_column(column),
            TableLine::RowPlus { key, .. } => self.add_row(key),
            TableLine::Cell {
                column,
                value,
                key,
                ..
            } => self.set_cell(key, column, value),
        }
    }

    fn remove_row(&mut self, key: &Row)
        requires { IsTrue (has_row key.now self.old) }
        ensures { self.new ≡ without_row key.now self.old }
    {
        let Ok(place) = self.find_row(key) else {
            unreachable!()
        };
        self.rows.remove(place);
    }

    fn remove_column(&mut self, column: &Text)
        requires { IsTrue (has_column column.now self.old) }
        ensures { self.new ≡ without_column column.now self.old }
    {
        let Ok(place) = self.find_column(column) else {
            unreachable!()
        };
        self.columns.remove(place);
        keyed_row::remove_cells(&mut self.rows, place);
    }

    fn add_column(&mut self, column: &Text) -> Result<(), NoMemory>
        requires { has_column column.now self.old ≡ false }
        ensures ok { OnOk result (self.new ≡ with_column column.now self.old) }
        ensures err { OnErr result (self.new ≡ self.old) }
    {
        let Err(place) = self.find_column(column) else {
            unreachable!()
        };
        let alloc = *self.rows.allocator();
        let column = column.copy()?;
        keyed_row::make_room(&mut self.rows)?;
        self.columns.insert(place, column)?;
        keyed_row::insert_cells(alloc, &mut self.rows, place);
        Ok(())
    }

    fn add_row(&mut self, key: &Row) -> Result<(), NoMemory>
        requires { has_row key.now self.old ≡ false }
        ensures ok { OnOk result (self.new ≡ with_row key.now self.old) }
        ensures err { OnErr result (self.new ≡ self.old) }
    {
        let Err(place) = self.find_row(key) else {
            unreachable!()
        };
        let row = KeyedRow::empty(*self.rows.allocator(), key, self.columns.len())?;
        self.rows.insert(place, row)?;
        Ok(())
    }

    fn set_cell(&mut self, key: &Row, column: &Text, value: &Text) -> Result<(), NoMemory>
        requires row_there { IsTrue (has_row key.now self.old) }
        requires column_there { IsTrue (has_column column.now self.old) }
        ensures ok { OnOk result (self.new ≡ with_cell key.now column.now value.now self.old) }
        ensures err { OnErr result (self.new ≡ self.old) }
    {
        let value = value.copy()?;
        let (Ok(place), Ok(column)) = (self.find_row(key), self.find_column(column)) else {
            unreachable!()
        };
        let row = &mut self.rows[place];
        row.set_cell(column, value);
        Ok(())
    }
}
