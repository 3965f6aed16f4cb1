//! The file of a table that is kept.
ghost use Rattle.std.specs.Prelude.{◌≡◌, ◌≢◌, ◌∷◌, ◌++◌, [], IfOk, OnOk};
ghost use Rattle.std.specs.List.{AllByRecursion};
ghost use Rattle.csv_catalog.specs.RecordText.{csv_text};
ghost use Rattle.row_shelves.specs.Stocks.{Stock, rows_of};
ghost use Rattle.row_shelves.specs.Shelves.{all_rows};
ghost use Rattle.kept_tables.specs.Slots.{tables_in};
ghost use Rattle.view_folder.specs.TableFiles.{table_text, table_file, table_files, FitsShape, FitShape};
ghost use Rattle.flow_law.specs.Records.{row_records};

use crate::File;
use crate::file::file_name;
use crate::table_file::with_record;
use csv_catalog::RecordsText;
use flow_law::Shape;
use kept_tables::{KeptTable, Slot};
use row_shelves::{KeptRow, RowShelf};
use ss_text::{NoMemory, Text};
use std::alloc::Global;

/// The canonical text of the file of a table that is kept, which is that of `table_text`. The table is not copied.
pub fn kept_text(alloc: Global, table: &KeptTable, shape: &Shape) -> Result<Text, NoMemory>
    requires { FitsShape shape.now table.now.table }
    ensures { IfOk result (λ text. text ≡ table_text shape.now table.now.table) }
{
    let text = RecordsText::new(alloc)?;
    let text = with_record(alloc, text, shape.spot, &shape.constants, table.columns())?;
    let text = with_shelves(alloc, text, shape.spot, table.shelves())?;
    text.into_text()
}

// Adds a record for each row, shelf by shelf.
fn with_shelves(
    alloc: Global,
    text: RecordsText,
    spot: Option<usize>,
    shelves: &[RowShelf],
) -> Result<RecordsText, NoMemory>
    requires { AllByRecursion (λ (r : Stock). r.key ≢ []) (all_rows shelves.now) }
    ensures { IfOk result (λ all. all ≡ text ++ csv_text (row_records spot (rows_of (all_rows shelves.now)))) }
{
    let mut text = text;
    for shelf in shelves {
        text = with_shelf(alloc, text, spot, shelf.rows())?;
    }
    Ok(text)
}

// Adds a record for each row of a shelf.
fn with_shelf(
    alloc: Global,
    text: RecordsText,
    spot: Option<usize>,
    shelf: &[KeptRow],
) -> Result<RecordsText, NoMemory>
    requires { AllByRecursion (λ (r : Stock). r.key ≢ []) shelf.now }
    ensures { IfOk result (λ all. all ≡ text ++ csv_text (row_records spot (rows_of shelf.now))) }
{
    let mut text = text;
    for row in shelf {
        text = with_record(alloc, text, spot, row.key(), row.cells())?;
    }
    Ok(text)
}

/// The files of the tables that are there, in the order of their slots.
pub(crate) fn kept_files(
    alloc: Global,
    slots: &[Slot],
    shape: &Shape,
) -> Result<Vec<File>, NoMemory>
    requires { FitShape shape.now (tables_in slots.now) }
    ensures { IfOk result (λ files. files.items ≡ table_files shape.now (tables_in slots.now)) }
{
    let mut files = Vec::new(alloc);
    for slot in slots {
        push_file(alloc, &mut files, slot, shape)?;
    }
    Ok(files)
}

// Puts the file of a table last that is there.
fn push_file(
    alloc: Global,
    files: &mut Vec<File>,
    slot: &Slot,
    shape: &Shape,
) -> Result<(), NoMemory>
    requires { FitShape shape.now (tables_in (slot.now ∷ [])) }
    ensures { OnOk result (files.new.items ≡ files.old.items ++ table_files shape.now (tables_in (slot.now ∷ []))) }
{
    let Some(table) = slot.table() else {
        return Ok(());
    };
    let file = kept_file(alloc, slot.label(), table, shape)?;
    files.push(file)?;
    Ok(())
}

fn kept_file(
    alloc: Global,
    label: &Text,
    table: &KeptTable,
    shape: &Shape,
) -> Result<File, NoMemory>
    requires { FitsShape shape.now table.now.table }
    ensures { IfOk result (λ file. file ≡ table_file shape.now (label.now, table.now.table)) }
{
    let name = file_name(alloc, label)?;
    let bytes = kept_text(alloc, table, shape)?;
    Ok(File { name, bytes })
}
