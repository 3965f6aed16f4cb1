//! The records of a file.
ghost use Rattle.std.specs.Prelude.{◌≡◌, List, ℕ, [], IfOk};
ghost use Rattle.csv.specs.Records.{fields_of};
ghost use Rattle.ss_text.specs.Texts.{Row};
ghost use Rattle.csv_catalog.specs.Records.{records_of};
ghost use Rattle.csv_catalog.specs.Reader.{IsAt, HasGiven};

use csv::{ByteRecord, Reader, ReaderBuilder};
use ss_text::{NoMemory, Row, Text};
use std::alloc::Global;

/// The records that a file with these bytes holds, in order, a header being one of them. One byte order mark
/// at the front is passed over; records may differ in their numbers of fields, and each has at least one.
pub fn records(alloc: Global, bytes: &[u8]) -> Result<Vec<Row>, NoMemory>
    ensures { IfOk result (λ rows. rows.items ≡ records_of bytes.now) }
{
    let mut reader = reader_of(alloc, bytes);
    let mut found = ByteRecord::new(alloc);
    let mut rows = Vec::new(alloc);
    loop {
        match next_record(alloc, &mut reader, &mut found)? {
            Some(row) => rows.push(row)?,
            None => return Ok(rows),
        }
    }
}

// A reader that gave no record of these bytes yet.
pub(crate) fn reader_of(alloc: Global, bytes: &[u8]) -> Reader<&[u8]>
    ensures { IsAt bytes.now [] result }
{
    ReaderBuilder::new()
        .has_headers(false)
        .flexible(true)
        .from_reader(alloc, bytes)
}

// The next record of a reader, for which there is a record to be read into, or nothing at the end.
pub(crate) fn next_record(
    alloc: Global,
    reader: &mut Reader<&[u8]>,
    found: &mut ByteRecord,
) -> Result<Option<Row>, NoMemory>
    ensures { IfOk result (λ next. (bytes : List ℕ) (rows : List Row) → IsAt bytes rows reader.old → HasGiven bytes rows next reader.old reader.new) }
{
    // Memory is all that this reader can lack: a slice is read without a fault.
    let Ok(more) = reader.read_byte_record(found) else {
        return Err(NoMemory);
    };
    if !more {
        return Ok(None);
    }
    let row = row_of(alloc, found)?;
    Ok(Some(row))
}

// The fields of a record.
#[tactic(auto, using(crate::proofs::AllRecords::taken_more, crate::proofs::AllRecords::taken_all))]
fn row_of(alloc: Global, found: &ByteRecord) -> Result<Row, NoMemory>
    ensures { IfOk result (λ row. row ≡ fields_of found.now) }
{
    let mut texts = Vec::with_capacity(alloc, found.len())?;
    for field in found {
        texts.push(Text::of(alloc, field)?)?;
    }
    Ok(Row::of(texts))
}
