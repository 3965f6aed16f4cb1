//! The canonical text of records and relations.
ghost use Rattle.std.specs.Prelude.{◌≡◌, ◌≢◌, ◌++◌, [], IfOk, OnOk, List, map, true, false};
ghost use Rattle.std.specs.List.{list_all, AllByRecursion};
ghost use Rattle.schema_model.specs.States.{plain_relation};
ghost use Rattle.ss_text.specs.Texts.{Row};
ghost use Rattle.csv_catalog.specs.Records.{records_of};
ghost use Rattle.csv_catalog.specs.RecordText.{record_text, csv_text, relation_records, has_field, starts_with_bom};
ghost use Rattle.csv_catalog.specs.Written.{IsBetweenRecords, written};

use csv::{Writer, WriterBuilder};
use schema_model::Relation;
use ss_text::{NoMemory, Row, Text};
use std::alloc::Global;

/// The canonical text of a record that has a field: its fields joined by commas, and LF at the end. A field
/// stands in double quotes, each double quote inside doubled, exactly where it holds a comma, a double quote,
/// CR or LF, or where it is empty and the only one.
pub fn record_text(alloc: Global, row: &Row) -> Result<Text, NoMemory>
    requires { row.now ≢ [] }
    ensures { IfOk result (λ text. text ≡ record_text row.now) }
{
    let mut writer = new_writer(alloc);
    write_row(&mut writer, row)?;
    text_of(writer)
}

/// The canonical text of a relation's file: the record of its attributes, and then those of its rows in their
/// order.
#[tactic(auto, unfolding(crate::specs::RecordText::csv_text))]
pub fn relation_text(alloc: Global, relation: &Relation) -> Result<Text, NoMemory>
    ensures { IfOk result (λ text. text ≡ csv_text (relation_records (plain_relation relation.now))) }
{
    let mut writer = new_writer(alloc);
    write_row(&mut writer, relation.attributes())?;
    write_rows(&mut writer, &relation.rows(alloc)?)?;
    text_of(writer)
}

// Writes these rows.
fn write_rows(writer: &mut Writer<Vec<u8>>, rows: &[&Row]) -> Result<(), NoMemory>
    requires some { AllByRecursion (λ row. row ≢ []) (map (λ row. row.now) rows.now) }
    requires between { IsBetweenRecords writer.old }
    ensures text { OnOk result (written writer.new ≡ written writer.old ++ csv_text (map (λ row. row.now) rows.now)) }
    ensures between { OnOk result (IsBetweenRecords writer.new) }
{
    for row in rows {
        write_row(writer, row)?;
    }
    Ok(())
}

pub(crate) fn new_writer(alloc: Global) -> Writer<Vec<u8>>
    ensures between { IsBetweenRecords result }
    ensures empty { written result ≡ [] }
{
    WriterBuilder::new().from_writer(Vec::new(alloc))
}

// Writes a record.
pub(crate) fn write_row(writer: &mut Writer<Vec<u8>>, row: &Row) -> Result<(), NoMemory>
    requires some { row.now ≢ [] }
    requires between { IsBetweenRecords writer.old }
    ensures text { OnOk result (written writer.new ≡ written writer.old ++ record_text row.now) }
    ensures between { OnOk result (IsBetweenRecords writer.new) }
{
    for text in row.cells() {
        let Ok(()) = writer.write_field(text.as_slice()) else {
            return Err(NoMemory);
        };
    }
    let Ok(()) = writer.end_record() else {
        return Err(NoMemory);
    };
    Ok(())
}

// The text that was written.
pub(crate) fn text_of(writer: Writer<Vec<u8>>) -> Result<Text, NoMemory>
    ensures { IfOk result (λ text. text ≡ written writer) }
{
    match writer.into_inner() {
        Ok(bytes) => Text::of_vec(bytes),
        Err(_) => Err(NoMemory),
    }
}

/// Canonical text is read back as the records that were written, where the first field of the first record
/// does not begin with a byte order mark.
#[tactic(auto, using(crate::proofs::RoundTrip::reads_back))]
pub fn written_records_read_back()
    ensures { (rows : List Row) → list_all has_field rows ≡ true → starts_with_bom rows ≡ false → records_of (csv_text rows) ≡ rows }
{}
