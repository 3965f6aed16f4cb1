//! Tables by their labels.
ghost use Rattle.std.specs.Prelude.{◌≡◌, ◌<◌, [], ◌∷◌, ◌++◌, false, length, is_ok, IsTrue, IfOk, IfErr, IfSome, IfNone, OnOk, OnErr, slice_index_or};
ghost use Rattle.ss_text.specs.Texts.{text_cmp};
ghost use Rattle.ss_text.specs.Keys.{IsPlaceOf, IsPlaceFor};
ghost use Rattle.std.specs.List.Sorted.{IsStrictlySortedBy};
ghost use Rattle.std.specs.Option.{option_copied};
ghost use Rattle.flow_law.specs.Tables.{labels_of, label_in, table_of, tables_at};
ghost use Rattle.flow_law.specs.InOrder.{IsTable, AreTables};
ghost use Rattle.flow_law.specs.Lines.{has_table, fits_label, fits_line, label_of, table_after, at_table, without_table, with_table, after_line};

use crate::{Table, TableLine};
use ss_text::{NoMemory, Text};
use std::alloc::Global;
use std::marker::Model;

/// Tables, which contracts see as the list of their labels with the tables. Labels ascend strictly.
#[derive(Debug, Drop)]
pub struct Tables {
    tables: Vec<(Text, Table)>,
}

impl Model for Tables {
    ghost use Rattle.flow_law.specs.Tables.{TablesValue};

    ghost Value = { TablesValue };

    ghost use Rattle.flow_law.specs.InOrder.{AreTables};

    ghost view = { λ t. t.tables.items };

    ghost invariant = { λ t. AreTables t.tables.items };
}

impl Tables {
    /// No tables.
    pub fn new(alloc: Global) -> Tables
        ensures { result ≡ [] }
    {
        Tables {
            tables: Vec::new(alloc),
        }
    }

    /// Adds a table after all others. After `NoMemory` the tables are as before.
    pub fn put_table(&mut self, label: Text, table: Table) -> Result<(), NoMemory>
        requires order { IsStrictlySortedBy text_cmp (labels_of self.old ++ label ∷ []) }
        requires table { IsTable table }
        ensures ok { OnOk result (self.new ≡ self.old ++ (label, table) ∷ []) }
        ensures err { OnErr result (self.new ≡ self.old) }
    {
        self.tables.push((label, table))?;
        Ok(())
    }

    /// Whether the table, the row and the column that a line needs are there, and those that it adds are not.
    pub fn fits(&self, line: &TableLine) -> bool
        ensures { result ≡ fits_line self.now line.now }
    {
        match line {
            TableLine::TableMinus { label } => self.search(label).is_ok(),
            TableLine::TablePlus { label } => self.search(label).is_err(),
            _ => self.fits_label(line),
        }
    }

    fn fits_label(&self, line: &TableLine) -> bool
        ensures { result ≡ fits_label self.now line.now }
    {
        match self.search(line.label()) {
            Ok(place) => self.tables[place].1.fits(line),
            Err(_) => false,
        }
    }

    /// Makes the step of a line whose table, row and column are there, or are not there where it adds them.
    /// After `NoMemory` the tables are as before.
    pub fn change(&mut self, line: &TableLine) -> Result<(), NoMemory>
        requires { IsTrue (fits_line self.old line.now) }
        ensures ok { OnOk result (self.new ≡ after_line self.old line.now) }
        ensures err { OnErr result (self.new ≡ self.old) }
    {
        match line {
            TableLine::TableMinus { label } => {
                self.remove(label);
                Ok(())
            }
            TableLine::TablePlus { label } => self.add(label),
            _ => self.change_table(line),
        }
    }

    /// How many tables there are.
    pub fn count(&self) -> usize
        ensures count { result ≡ length self.now }
        ensures in_order { AreTables self.now }
    {
        self.tables.len()
    }

    /// The label at a place, from 0.
    pub fn label(&self, place: usize) -> &Text
        requires { place < length self.now }
        ensures { result.now ≡ (tables_at place self.now).0 }
    {
        &self.tables[place].0
    }

    /// The table at a place, from 0.
    pub fn table(&self, place: usize) -> &Table
        requires { place < length self.now }
        ensures table { result.now ≡ (tables_at place self.now).1 }
        ensures in_order { IsTable result.now }
    {
        &self.tables[place].1
    }

    /// The place of a label, from 0, if it has a table.
    pub fn find(&self, label: &Text) -> Option<usize>
        ensures found { IfSome result (IsPlaceOf label_in label.now self.now) }
        ensures absent { IfNone result (has_table self.now label.now ≡ false) }
    {
        self.search(label).ok()
    }

    /// The table of a label, if there is one.
    pub fn table_of(&self, label: &Text) -> Option<&Table>
        ensures { option_copied result ≡ table_of self.now label.now }
    {
        match self.search(label) {
            Ok(place) => Some(&self.tables[place].1),
            Err(_) => None,
        }
    }

    // The place of a label, or where its table would stand.
    fn search(&self, label: &Text) -> Result<usize, usize>
        ensures there { is_ok result ≡ has_table self.now label.now }
        ensures found { IfOk result (IsPlaceOf label_in label.now self.now) }
        ensures absent { IfErr result (IsPlaceFor text_cmp label_in label.now self.now) }
    {
        self.tables.binary_search_by(|table| table.0.cmp(label))
    }

    fn remove(&mut self, label: &Text)
        requires { IsTrue (has_table self.old label.now) }
        ensures { self.new ≡ without_table label.now self.old }
    {
        let Ok(place) = self.search(label) else {
            unreachable!()
        };
        self.tables.remove(place);
    }

    fn add(&mut self, label: &Text) -> Result<(), NoMemory>
        requires { has_table self.old label.now ≡ false }
        ensures ok { OnOk result (self.new ≡ with_table label.now self.old) }
        ensures err { OnErr result (self.new ≡ self.old) }
    {
        let Err(place) = self.search(label) else {
            unreachable!()
        };
        let label = label.copy()?;
        let table = Table::new(*self.tables.allocator());
        self.tables.insert(place, (label, table))?;
        Ok(())
    }

    fn change_table(&mut self, line: &TableLine) -> Result<(), NoMemory>
        requires { IsTrue (fits_label self.old line.now) }
        ensures ok { OnOk result (self.new ≡ at_table (label_of line.now) (table_after line.now) self.old) }
        ensures err { OnErr result (self.new ≡ self.old) }
    {
        let Ok(place) = self.search(line.label()) else {
            unreachable!()
        };
        let (_, table) = &mut self.tables[place];
        table.change(line)?;
        Ok(())
    }
}
