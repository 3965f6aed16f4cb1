//! Lines of tables as changes of the database that stands for them.
ghost use Rattle.std.specs.Prelude.{◌≡◌, ◌≤◌, ◌++◌, [], Some, map, length, slice_get, if◌then◌else◌, IfOk, OnOk, IsTrue};
ghost use Rattle.std.specs.List.{AllByRecursion};
ghost use Rattle.flow_law.specs.Lines.{label_of};
ghost use Rattle.schema_model.specs.Changes.{is_well_formed};
ghost use Rattle.view_stack.specs.Lifted.{lifted, lifted_line, goes_on, table_at};
ghost use Rattle.view_stack.specs.Records.{front_cells, record_after};

use crate::cell_row::{CellRow, goes_on, push_front};
use crate::key_texts::KeyTexts;
use crate::names::{Left, names_of};
use flow_law::TableLine;
use kept_tables::KeptTables;
use schema_model::{Catalogue, Change};
use ss_text::{NoMemory, Row, Text};
use std::alloc::Global;

/// Tables, their constant columns, and the name of the database that they are.
#[derive(Drop)]
pub struct Below<'a> {
    pub db: &'a Text,
    pub constants: &'a Row,
    pub tables: &'a KeptTables,
}

/// Lines of tables as changes of a catalogue that stands for these tables. Where the lines are the script to other tables, it
/// stands for those after the changes. The lines of one key that stand together are one insert where the row comes, and else
/// one delete and one insert.
///
/// What a row of the catalogue says is read in the tables, by its key, so no row is sought in the catalogue.
pub fn lifted(
    alloc: Global,
    catalogue: &Catalogue,
    below: &Below<'_>,
    lines: &[TableLine],
) -> Result<Vec<Change>, NoMemory>
    ensures changes { IfOk result (λ changes.
        changes.items ≡ lifted below.now.db.now below.now.constants.now below.now.tables.now.tables catalogue.now.databases lines.now) }
    ensures well_formed { 1 ≤ length below.now.constants.now → IfOk result (λ changes. AllByRecursion (λ g. IsTrue (is_well_formed g)) changes.items) }
{
    let mut changes = Vec::new(alloc);
    let mut left = None;
    let mut row = None;
    for (place, line) in lines.iter().enumerate() {
        let names = names_of(alloc, catalogue, below.db, left, line.label())?;
        below.lift(alloc, &mut changes, &names, &row, line, &lines[place + 1..])?;
        left = Some(Left::by(alloc, below.constants, names, line)?);
        row = CellRow::of(line);
    }
    Ok(changes)
}

impl<'a> Below<'a> {
    // Puts the changes of a line with those behind it last, unless it goes on with a row.
    fn lift(
        &self,
        alloc: Global,
        changes: &mut Vec<Change>,
        names: &[Text],
        row: &Option<CellRow<'_>>,
        line: &TableLine,
        later: &[TableLine],
    ) -> Result<(), NoMemory>
        ensures { OnOk result (changes.new.items ≡ changes.old.items ++ (if goes_on row.now line.now then [] else
            lifted_line self.now.db.now self.now.constants.now (table_at self.now.tables.now.tables (label_of line.now)) names.now line.now later.now)) }
    {
        if goes_on(row, line) {
            return Ok(());
        }
        changes.push(self.first_change(alloc, names, line, later)?)?;
        match self.second_change(alloc, names, line, later)? {
            Some(change) => {
                changes.push(change)?;
                Ok(())
            }
            None => Ok(()),
        }
    }

    // The record of a key in the order of names, after cells of its row got values.
    fn record(
        &self,
        alloc: Global,
        names: &[Text],
        label: &Text,
        key: &Row,
        cells: &[(&Text, &Text)],
    ) -> Result<Row, NoMemory>
        ensures { IfOk result (λ row. row ≡ record_after self.now.constants.now names.now (table_at self.now.tables.now.tables label.now) key.now (map (λ c. (c.0.now, c.1.now)) cells.now)) }
    {
        let texts = KeyTexts::of(self.constants, self.tables.table_of(label), key);
        texts.record(alloc, names, cells)
    }

    // The record of a key that comes, with the cells of its row at the front of the lines behind.
    fn new_record(
        &self,
        alloc: Global,
        names: &[Text],
        label: &Text,
        key: &Row,
        later: &[TableLine],
    ) -> Result<Row, NoMemory>
        ensures { IfOk result (λ row. row ≡ record_after self.now.constants.now names.now (table_at self.now.tables.now.tables label.now) key.now (front_cells label.now key.now later.now)) }
    {
        let mut cells = Vec::new(alloc);
        push_front(&mut cells, label, key, later)?;
        self.record(alloc, names, label, key, &cells)
    }

    // The first change of a line with those behind it.
    fn first_change(
        &self,
        alloc: Global,
        names: &[Text],
        line: &TableLine,
        later: &[TableLine],
    ) -> Result<Change, NoMemory>
        ensures { IfOk result (λ change. Some change
            ≡ slice_get (lifted_line self.now.db.now self.now.constants.now (table_at self.now.tables.now.tables (label_of line.now)) names.now line.now later.now) 0) }
    {
        let db = self.db.copy()?;
        let rel = line.label().copy()?;
        match line {
            TableLine::TableMinus { .. } => Ok(Change::DropRelation { db, rel }),
            TableLine::TablePlus { .. } => {
                let attributes = self.constants.copy()?;
                Ok(Change::CreateRelation {
                    db,
                    rel,
                    attributes,
                })
            }
            TableLine::ColumnMinus { column, .. } => {
                let name = column.copy()?;
                Ok(Change::DropAttribute { db, rel, name })
            }
            TableLine::ColumnPlus { column, .. } => {
                let name = column.copy()?;
                let fill = Text::empty(alloc);
                Ok(Change::AddAttribute {
                    db,
                    rel,
                    name,
                    fill,
                })
            }
            TableLine::RowPlus { label, key } => {
                let row = self.new_record(alloc, names, label, key, later)?;
                Ok(Change::Insert { db, rel, row })
            }
            TableLine::RowMinus { label, key } | TableLine::Cell { label, key, .. } => {
                let row = self.record(alloc, names, label, key, &[])?;
                Ok(Change::Delete { db, rel, row })
            }
        }
    }

    // The second change of a line with those behind it, where it is of a cell.
    fn second_change(
        &self,
        alloc: Global,
        names: &[Text],
        line: &TableLine,
        later: &[TableLine],
    ) -> Result<Option<Change>, NoMemory>
        ensures { IfOk result (λ change. change
            ≡ slice_get (lifted_line self.now.db.now self.now.constants.now (table_at self.now.tables.now.tables (label_of line.now)) names.now line.now later.now) 1) }
    {
        match line {
            TableLine::Cell {
                label,
                column,
                value,
                key,
            } => {
                let mut cells = Vec::new(alloc);
                cells.push((column, value))?;
                push_front(&mut cells, label, key, later)?;
                let db = self.db.copy()?;
                let rel = label.copy()?;
                let row = self.record(alloc, names, label, key, &cells)?;
                Ok(Some(Change::Insert { db, rel, row }))
            }
            TableLine::TableMinus { .. }
            | TableLine::TablePlus { .. }
            | TableLine::RowMinus { .. }
            | TableLine::ColumnMinus { .. }
            | TableLine::ColumnPlus { .. }
            | TableLine::RowPlus { .. } => Ok(None),
        }
    }
}
