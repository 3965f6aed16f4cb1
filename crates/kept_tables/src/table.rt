//! One table, with memory for rows and columns to come.
ghost use Rattle.std.specs.Prelude.{◌≡◌, ◌<◌, ◌≤◌, ◌+◌, ◌-◌, false, is_ok, IsTrue, IfOk, IfErr, OnOk, OnErr};
ghost use Rattle.std.specs.Map.{lookup};
ghost use Rattle.std.specs.Option.{option_copied};
ghost use Rattle.ss_text.specs.Texts.{text_cmp, row_eq};
ghost use Rattle.ss_text.specs.Keys.{IsPlaceOf, IsPlaceFor};
ghost use Rattle.flow_law.specs.Tables.{table_value, empty_table};
ghost use Rattle.flow_law.specs.InOrder.{IsTable};
ghost use Rattle.flow_law.specs.Lines.{has_row, has_column, fits_table, without_row, with_row, without_column, with_column, with_cell};
ghost use Rattle.row_shelves.specs.Stocks.{rows_of};
ghost use Rattle.row_shelves.specs.Shelves.{all_rows};
ghost use Rattle.kept_tables.specs.Kept.{kept_table, kept_after, kept_for, HasFor};

use flow_law::TableLine;
use row_shelves::{RowShelf, RowShelves};
use ss_text::{NoMemory, Row, Text};
use std::alloc::Global;
use std::marker::Model;

/// A table that takes rows and columns for which memory was taken before. Contracts see the table, and how many rows
/// and columns there is memory for beside its own.
#[derive(Debug)]
pub struct KeptTable {
    columns: Vec<Text>,
    rows: RowShelves,
    coming: usize,
}

impl Drop for KeptTable {
    fn drop(self) {
        let KeptTable {
            columns,
            rows,
            coming: _,
        } = self;
        drop(columns);
        drop(rows);
    }
}

impl Model for KeptTable {
    ghost use Rattle.flow_law.specs.Tables.{table_value};
    ghost use Rattle.kept_tables.specs.Kept.{KeptTableValue, kept_table};
    ghost use Rattle.kept_tables.specs.Ready.{IsKeptTable};

    ghost Value = { KeptTableValue };

    ghost view = { λ t. kept_table (table_value t.columns.items t.rows.rows) t.rows.coming t.coming };

    ghost invariant = { λ t. IsKeptTable t.columns t.rows t.coming };
}

impl KeptTable {
    /// The table without columns and rows, and no memory for any.
    pub fn new(alloc: Global) -> KeptTable
        ensures { result ≡ kept_table empty_table 0 0 }
    {
        KeptTable {
            columns: Vec::new(alloc),
            rows: RowShelves::new(alloc),
            coming: 0,
        }
    }

    /// The table with these columns and rows.
    pub fn of(columns: Vec<Text>, mut rows: RowShelves) -> Result<KeptTable, NoMemory>
        requires table { IsTable (table_value columns.items rows.rows) }
        requires none { rows.coming ≡ 0 }
        requires no_bound { rows.bound ≡ 0 }
        ensures { IfOk result (λ t. t ≡ kept_table (table_value columns.items rows.rows) 0 0) }
    {
        rows.widen(columns.len())?;
        Ok(KeptTable {
            columns,
            rows,
            coming: 0,
        })
    }

    /// The columns, in ascending order.
    pub fn columns(&self) -> &[Text]
        ensures columns { result.now ≡ self.now.table.columns }
        ensures in_order { IsTable self.now.table }
    {
        &self.columns
    }

    /// The rows in ascending order of their keys, shelf by shelf.
    pub fn shelves(&self) -> &[RowShelf]
        ensures rows { rows_of (all_rows result.now) ≡ self.now.table.rows }
        ensures in_order { IsTable self.now.table }
    {
        self.rows.shelves()
    }

    /// Whether there is a row of this key.
    pub fn has_row(&self, key: &Row) -> bool
        ensures { result ≡ has_row key.now self.now.table }
    {
        self.rows.has(key)
    }

    /// The cells of the row of this key, one for each column in their order, if there is such a row. No rows are walked.
    pub fn cells_of(&self, key: &Row) -> Option<&[Text]>
        ensures { option_copied result ≡ lookup (row_eq key.now) self.now.table.rows }
    {
        self.rows.cells_of(key)
    }

    /// Whether there is a column of this label.
    pub fn has_column(&self, column: &Text) -> bool
        ensures { result ≡ has_column column.now self.now.table }
    {
        self.find_column(column).is_ok()
    }

    // The place of a column, or where it would stand.
    fn find_column(&self, column: &Text) -> Result<usize, usize>
        ensures there { is_ok result ≡ has_column column.now self.now.table }
        ensures found { IfOk result (IsPlaceOf (λ c. c) column.now self.now.table.columns) }
        ensures absent { IfErr result (IsPlaceFor text_cmp (λ c. c) column.now self.now.table.columns) }
    {
        self.columns.binary_search(column)
    }

    // Takes the memory for one row more that will come.
    fn expect_row(&mut self, alloc: Global) -> Result<(), NoMemory>
        ensures ok { OnOk result (self.new ≡ kept_table self.old.table (self.old.rows_coming + 1) self.old.columns_coming) }
        ensures err { OnErr result (self.new ≡ self.old) }
    {
        self.rows.expect_row(alloc)?;
        Ok(())
    }

    // Takes the memory for one column more that will come.
    fn expect_column(&mut self) -> Result<(), NoMemory>
        ensures ok { OnOk result (self.new ≡ kept_table self.old.table self.old.rows_coming (self.old.columns_coming + 1)) }
        ensures err { OnErr result (self.new ≡ self.old) }
    {
        // More columns than can be counted are no memory.
        let Some(coming) = self.coming.checked_add(1) else {
            return Err(NoMemory);
        };
        let Some(bound) = self.columns.len().checked_add(coming) else {
            return Err(NoMemory);
        };
        self.columns.reserve(coming)?;
        widen(&mut self.rows, bound)?;
        self.coming = coming;
        Ok(())
    }

    /// Takes the memory for what a line adds.
    pub fn expect(&mut self, alloc: Global, line: &TableLine) -> Result<(), NoMemory>
        ensures ok { OnOk result (self.new ≡ kept_for line.now self.old) }
        ensures err { OnErr result (self.new ≡ self.old) }
    {
        match line {
            TableLine::RowPlus { .. } => self.expect_row(alloc),
            TableLine::ColumnPlus { .. } => self.expect_column(),
            TableLine::TableMinus { .. }
            | TableLine::TablePlus { .. }
            | TableLine::RowMinus { .. }
            | TableLine::ColumnMinus { .. }
            | TableLine::Cell { .. } => Ok(()),
        }
    }

    /// Makes the step of a line of this table, which names a row or a column. It takes no memory.
    pub fn make(&mut self, line: TableLine)
        requires fits { IsTrue (fits_table line self.old.table) }
        requires memory { HasFor line self.old }
        ensures { self.new ≡ kept_after line self.old }
    {
        match line {
            TableLine::RowMinus { key, .. } => self.remove_row(&key),
            TableLine::ColumnMinus { column, .. } => self.remove_column(&column),
            TableLine::ColumnPlus { column, .. } => self.add_column(column),
            TableLine::RowPlus { key, .. } => self.add_row(key),
            TableLine::Cell {
                column,
                value,
                key,
                ..
            } => self.set_cell(&key, &column, value),
            TableLine::TableMinus { .. } | TableLine::TablePlus { .. } => {}
        }
    }

    // Takes the row of a key out.
    fn remove_row(&mut self, key: &Row)
        requires { IsTrue (has_row key.now self.old.table) }
        ensures { self.new ≡ kept_table (without_row key.now self.old.table) self.old.rows_coming self.old.columns_coming }
    {
        self.rows.remove_row(key);
    }

    // Adds a row of empty cells.
    fn add_row(&mut self, key: Row)
        requires absent { has_row key self.old.table ≡ false }
        requires coming { 0 < self.old.rows_coming }
        ensures { self.new ≡ kept_table (with_row key self.old.table) (self.old.rows_coming - 1) self.old.columns_coming }
    {
        self.rows.add_row(key, self.columns.len());
    }

    // Takes a column out with its cells.
    fn remove_column(&mut self, column: &Text)
        requires { IsTrue (has_column column.now self.old.table) }
        ensures { self.new ≡ kept_table (without_column column.now self.old.table) self.old.rows_coming self.old.columns_coming }
    {
        let Ok(place) = self.find_column(column) else {
            unreachable!()
        };
        self.columns.remove(place);
        self.rows.remove_column(place);
    }

    // Adds a column of empty cells.
    fn add_column(&mut self, column: Text)
        requires absent { has_column column self.old.table ≡ false }
        requires coming { 0 < self.old.columns_coming }
        ensures { self.new ≡ kept_table (with_column column self.old.table) self.old.rows_coming (self.old.columns_coming - 1) }
    {
        let Err(place) = self.find_column(&column) else {
            unreachable!()
        };
        let Ok(()) = self.columns.insert(place, column) else {
            unreachable!()
        };
        self.rows.insert_column(place);
        self.coming -= 1;
    }

    // Gives a cell another value.
    fn set_cell(&mut self, key: &Row, column: &Text, value: Text)
        requires row_there { IsTrue (has_row key.now self.old.table) }
        requires column_there { IsTrue (has_column column.now self.old.table) }
        ensures { self.new ≡ kept_table (with_cell key.now column.now value self.old.table) self.old.rows_coming self.old.columns_coming }
    {
        let Ok(place) = self.find_column(column) else {
            unreachable!()
        };
        self.rows.set_cell(key, place, value);
    }

    /// Gives the memory for rows and columns to come back.
    pub fn forget(&mut self)
        ensures { self.new ≡ kept_table self.old.table 0 0 }
    {
        self.rows.forget();
        self.coming = 0;
    }

    /// Takes all columns and rows out, and keeps the memory for those to come.
    pub fn clear(&mut self)
        ensures { self.new ≡ kept_table empty_table self.old.rows_coming self.old.columns_coming }
    {
        self.columns.clear();
        self.rows.clear();
    }
}

// Takes the memory for so many cells of each row where there is less.
fn widen(rows: &mut RowShelves, bound: usize) -> Result<(), NoMemory>
    ensures rows { rows.new.rows ≡ rows.old.rows }
    ensures coming { rows.new.coming ≡ rows.old.coming }
    ensures grows { rows.old.bound ≤ rows.new.bound }
    ensures bound { OnOk result (bound ≤ rows.new.bound) }
{
    if bound <= rows.bound() {
        return Ok(());
    }
    rows.widen(bound)?;
    Ok(())
}
