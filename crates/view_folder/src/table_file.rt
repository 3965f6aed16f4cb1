//! The file of a table.
ghost use Rattle.std.specs.Prelude.{◌≡◌, ◌≢◌, ◌++◌, ◌<◌, [], Some, IfOk, length, map, take, slice_index_or};
ghost use Rattle.ss_text.specs.Texts.{Row};
ghost use Rattle.csv_catalog.specs.RecordText.{record_text};
ghost use Rattle.flow_law.specs.Tables.{row_at};
ghost use Rattle.view_folder.specs.Files.{AreViewFiles};
ghost use Rattle.view_folder.specs.TableFiles.{table_text, table_file, table_files, FitsShape, FitShape};
ghost use Rattle.flow_law.specs.Records.{spliced};

use crate::File;
use crate::file::file_name;
use csv_catalog::RecordsText;
use flow_law::{Shape, Table, Tables};
use ss_text::{NoMemory, Row, Text};
use std::alloc::Global;

/// The canonical text of a table's file: the header record, the dynamic columns standing behind as many
/// constant columns as the shape says, and a record for each key, ascending.
#[tactic(auto, unfolding(crate::specs::TableFiles::table_text))]
pub fn table_text(alloc: Global, table: &Table, shape: &Shape) -> Result<Text, NoMemory>
    requires { FitsShape shape.now table.now }
    ensures { IfOk result (λ text. text ≡ table_text shape.now table.now) }
{
    let columns = table.columns();
    let text = RecordsText::new(alloc)?;
    let mut text = with_record(alloc, text, shape.spot, &shape.constants, columns)?;
    for place in 0..table.count() {
        let key = table.key(place);
        text = with_record(alloc, text, shape.spot, key, table.cells(place))?;
    }
    text.into_text()
}

/// The files of tables, in the order of their labels: a label and `.csv` is the name of its table's file.
#[tactic(auto, using(crate::proofs::OpeningLemmas::are_view_files), unfolding(crate::specs::TableFiles::table_files))]
pub fn table_files(alloc: Global, tables: &Tables, shape: &Shape) -> Result<Vec<File>, NoMemory>
    requires { FitShape shape.now tables.now }
    ensures files { IfOk result (λ files. files.items ≡ table_files shape.now tables.now) }
    ensures named { AreViewFiles (table_files shape.now tables.now) }
{
    let mut files = Vec::new(alloc);
    for place in 0..tables.count() {
        files.push(table_file(alloc, tables.label(place), tables.table(place), shape)?)?;
    }
    Ok(files)
}

// The file of a table.
fn table_file(alloc: Global, label: &Text, table: &Table, shape: &Shape) -> Result<File, NoMemory>
    requires { FitsShape shape.now table.now }
    ensures { IfOk result (λ file. file ≡ table_file shape.now (label.now, table.now)) }
{
    let name = file_name(alloc, label)?;
    let bytes = table_text(alloc, table, shape)?;
    Ok(File { name, bytes })
}

/// Adds a record: the constant part, with the dynamic part behind as many of its texts as the spot says.
pub(crate) fn with_record(
    alloc: Global,
    text: RecordsText,
    spot: Option<usize>,
    constant: &Row,
    dynamic: &[Text],
) -> Result<RecordsText, NoMemory>
    requires { spliced spot constant.now dynamic.now ≢ [] }
    ensures { IfOk result (λ all. all ≡ text ++ record_text (spliced spot constant.now dynamic.now)) }
{
    let Some(spot) = spot else {
        return text.with(constant);
    };
    let record = spliced(alloc, spot, constant, dynamic)?;
    text.with(&record)
}

// The record whose dynamic part stands behind so many texts of its constant part.
fn spliced(alloc: Global, spot: usize, constant: &Row, dynamic: &[Text]) -> Result<Row, NoMemory>
    ensures { IfOk result (λ row. row ≡ spliced (Some spot) constant.now dynamic.now) }
{
    let constant = constant.cells();
    let split = spot.min(constant.len());
    let mut record = Vec::with_capacity(alloc, constant.len() + dynamic.len())?;
    append(&mut record, &constant[..split])?;
    append(&mut record, dynamic)?;
    append(&mut record, &constant[split..])?;
    Ok(Row::of(record))
}

// Puts copies of these texts last.
fn append(row: &mut Vec<Text>, texts: &[Text]) -> Result<(), NoMemory>
    ensures { IfOk result (λ _. row.new.items ≡ row.old.items ++ texts.now) }
{
    for text in texts {
        row.push(text.copy()?)?;
    }
    Ok(())
}
