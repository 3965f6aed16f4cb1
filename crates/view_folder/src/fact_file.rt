//! The file of a table whose facts are there.
ghost use Rattle.std.specs.Prelude.{◌≡◌, ◌≢◌, ◌∷◌, ◌++◌, [], ℕ, List, IfOk, OnOk, ◌≤◌, ◌<◌, length, take, drop, slice_index_or, option_map, option_copied};
ghost use Rattle.std.specs.List.{AllByRecursion};
ghost use Rattle.ss_text.specs.Texts.{Row};
ghost use Rattle.flow_law.specs.Tables.{table_of};
ghost use Rattle.csv_catalog.specs.RecordText.{record_text, csv_text};
ghost use Rattle.view_folder.specs.Fields.{IsWithin};
ghost use Rattle.view_folder.specs.TableFiles.{table_text, table_file, table_files, FitsShape, FitShape};
ghost use Rattle.flow_law.specs.Records.{spliced, row_records};

use crate::File;
use crate::fields::{end_record, into_text, new_writer, put_field};
use crate::file::file_name;
use csv::Writer;
use fact_tables::{FactCell, FactRow, Label, Rows, TableFacts};
use flow_law::Shape;
use ss_text::{NoMemory, Text};
use std::alloc::Global;

/// The canonical text of the file of a table whose facts these are, which is that of `table_text`. It is written from
/// the facts, and no table is made.
pub(crate) fn facts_text<C: FactCell>(
    alloc: Global,
    facts: &TableFacts<'_, '_, C>,
    shape: &Shape,
) -> Result<Text, NoMemory>
    requires { FitsShape shape.now facts.now.1 }
    ensures { IfOk result (λ text. text ≡ table_text shape.now facts.now.1) }
{
    let mut writer = new_writer(alloc);
    put_table(alloc, &mut writer, facts, shape)?;
    into_text(writer)
}

// Writes the records of a table.
fn put_table<C: FactCell>(
    alloc: Global,
    writer: &mut Writer<Vec<u8>>,
    facts: &TableFacts<'_, '_, C>,
    shape: &Shape,
) -> Result<(), NoMemory>
    requires { FitsShape shape.now facts.now.1 }
    ensures { IsWithin [] [] writer.old → OnOk result (IsWithin (table_text shape.now facts.now.1) [] writer.new) }
{
    let columns = facts.columns(alloc)?;
    put_header(writer, shape, &columns)?;
    put_rows(writer, shape.spot, facts.rows(&columns))
}

// Writes the header: the constant columns, with these columns behind as many of them as the spot says.
fn put_header(
    writer: &mut Writer<Vec<u8>>,
    shape: &Shape,
    columns: &[Label<'_>],
) -> Result<(), NoMemory>
    requires { shape.now.constants ≢ [] }
    ensures { (ended : List ℕ) → IsWithin ended [] writer.old
        → OnOk result (IsWithin (ended ++ record_text (spliced shape.now.spot shape.now.constants columns.now)) [] writer.new) }
{
    let constants = shape.constants.cells();
    let Some(spot) = shape.spot else {
        put_texts(writer, constants)?;
        return end_record(writer);
    };
    let split = spot.min(constants.len());
    put_texts(writer, &constants[..split])?;
    put_labels(writer, columns)?;
    put_texts(writer, &constants[split..])?;
    end_record(writer)
}

// Writes a record for each row.
fn put_rows<C: FactCell>(
    writer: &mut Writer<Vec<u8>>,
    spot: Option<usize>,
    rows: Rows<'_, '_, '_, C>,
) -> Result<(), NoMemory>
    requires { AllByRecursion (λ (r : Row × Row). r.0 ≢ []) rows }
    ensures { (ended : List ℕ) → IsWithin ended [] writer.old → OnOk result (IsWithin (ended ++ csv_text (row_records spot rows.entry)) [] writer.new) }
{
    let mut rows = rows;
    while let Some(row) = rows.take_next() {
        put_row(writer, spot, &row)?;
    }
    Ok(())
}

// Writes the record of a row: its key, with the cells behind as many texts of it as the spot says.
fn put_row<C: FactCell>(
    writer: &mut Writer<Vec<u8>>,
    spot: Option<usize>,
    row: &FactRow<'_, '_, '_, C>,
) -> Result<(), NoMemory>
    requires { row.now.0 ≢ [] }
    ensures { (ended : List ℕ) → IsWithin ended [] writer.old
        → OnOk result (IsWithin (ended ++ record_text (spliced spot row.now.0 row.now.1)) [] writer.new) }
{
    let len = row.key_len();
    let Some(spot) = spot else {
        put_key(writer, row, 0, len)?;
        return end_record(writer);
    };
    let split = spot.min(len);
    put_key(writer, row, 0, split)?;
    put_cells(writer, row)?;
    put_key(writer, row, split, len)?;
    end_record(writer)
}

// Writes a field for each text of the key of a row from one place up to another.
fn put_key<C: FactCell>(
    writer: &mut Writer<Vec<u8>>,
    row: &FactRow<'_, '_, '_, C>,
    from: usize,
    to: usize,
) -> Result<(), NoMemory>
    requires within { to ≤ length row.now.0 }
    requires in_order { from ≤ to }
    ensures { (ended : List ℕ) (fields : Row) → IsWithin ended fields writer.old → OnOk result (IsWithin ended (fields ++ drop from (take to row.now.0)) writer.new) }
{
    for place in from..to {
        put_key_text(writer, row, place)?;
    }
    Ok(())
}

// Writes a field for a text of the key of a row. A short one is not read.
fn put_key_text<C: FactCell>(
    writer: &mut Writer<Vec<u8>>,
    row: &FactRow<'_, '_, '_, C>,
    place: usize,
) -> Result<(), NoMemory>
    requires { place < length row.now.0 }
    ensures { (ended : List ℕ) (fields : Row) → IsWithin ended fields writer.old → OnOk result (IsWithin ended (fields ++ slice_index_or row.now.0 place [] ∷ []) writer.new) }
{
    match row.short(place) {
        Some(short) => put_field(writer, short.as_slice()),
        None => put_field(writer, row.key_text(place)),
    }
}

// Writes a field for each text.
fn put_texts(writer: &mut Writer<Vec<u8>>, texts: &[Text]) -> Result<(), NoMemory>
    ensures { (ended : List ℕ) (fields : Row) → IsWithin ended fields writer.old → OnOk result (IsWithin ended (fields ++ texts.now) writer.new) }
{
    for text in texts {
        put_field(writer, text.as_slice())?;
    }
    Ok(())
}

// Writes a field for each label.
fn put_labels(writer: &mut Writer<Vec<u8>>, labels: &[Label<'_>]) -> Result<(), NoMemory>
    ensures { (ended : List ℕ) (fields : Row) → IsWithin ended fields writer.old → OnOk result (IsWithin ended (fields ++ labels.now) writer.new) }
{
    for label in labels {
        put_label(writer, label)?;
    }
    Ok(())
}

// Writes a field for a label. A short one is not read.
fn put_label(writer: &mut Writer<Vec<u8>>, label: &Label<'_>) -> Result<(), NoMemory>
    ensures { (ended : List ℕ) (fields : Row) → IsWithin ended fields writer.old → OnOk result (IsWithin ended (fields ++ label.now ∷ []) writer.new) }
{
    match label.short() {
        Some(short) => put_field(writer, short.as_slice()),
        None => put_field(writer, label.text().as_slice()),
    }
}

// Writes a field for each cell of a row.
fn put_cells<C: FactCell>(
    writer: &mut Writer<Vec<u8>>,
    row: &FactRow<'_, '_, '_, C>,
) -> Result<(), NoMemory>
    ensures { (ended : List ℕ) (fields : Row) → IsWithin ended fields writer.old → OnOk result (IsWithin ended (fields ++ row.now.1) writer.new) }
{
    for place in 0..row.cell_count() {
        put_cell(writer, row, place)?;
    }
    Ok(())
}

// Writes a field for a cell of a row. A short one is not read.
fn put_cell<C: FactCell>(
    writer: &mut Writer<Vec<u8>>,
    row: &FactRow<'_, '_, '_, C>,
    place: usize,
) -> Result<(), NoMemory>
    requires { place < length row.now.1 }
    ensures { (ended : List ℕ) (fields : Row) → IsWithin ended fields writer.old → OnOk result (IsWithin ended (fields ++ slice_index_or row.now.1 place [] ∷ []) writer.new) }
{
    match row.cell(place) {
        Some(text) => put_label(writer, text),
        None => put_field(writer, &[]),
    }
}

/// The files of tables whose facts these are, in their order.
#[tactic(auto, unfolding(crate::specs::TableFiles::table_files))]
pub(crate) fn fact_files<C: FactCell>(
    alloc: Global,
    tables: &[TableFacts<'_, '_, C>],
    shape: &Shape,
) -> Result<Vec<File>, NoMemory>
    requires { FitShape shape.now tables.now }
    ensures { IfOk result (λ files. files.items ≡ table_files shape.now tables.now) }
{
    let mut files = Vec::new(alloc);
    for facts in tables {
        files.push(fact_file(alloc, facts, shape)?)?;
    }
    Ok(files)
}

// The file of a table.
fn fact_file<C: FactCell>(
    alloc: Global,
    facts: &TableFacts<'_, '_, C>,
    shape: &Shape,
) -> Result<File, NoMemory>
    requires { FitsShape shape.now facts.now.1 }
    ensures { IfOk result (λ file. file ≡ table_file shape.now facts.now) }
{
    let name = file_name(alloc, facts.label())?;
    let bytes = facts_text(alloc, facts, shape)?;
    Ok(File { name, bytes })
}

/// The facts of the table of a label, if there is one.
pub(crate) fn facts_of<'t, 'f, 'a, C: FactCell>(
    tables: &'t [TableFacts<'f, 'a, C>],
    label: &Text,
) -> Option<&'t TableFacts<'f, 'a, C>>
    ensures { option_map (λ p. p.1) (option_copied result) ≡ table_of tables.now label.now }
{
    for facts in tables {
        if label == facts.label() {
            return Some(facts);
        }
    }
    None
}
