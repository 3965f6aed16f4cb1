//! What is wrong in the records of a file.
ghost use Rattle.std.specs.Prelude.{◌≡◌, ◌≤◌, ◌+◌, ℕ, None, IfOk, length};
ghost use Rattle.csv_catalog.specs.Records.{records_of};
ghost use Rattle.csv_catalog.specs.FileFaults.{header_fault, first_repeated, row_fault, told_fault};
ghost use Rattle.csv_catalog.specs.Judged.{AreJudged, fault_so_far, next_fault};
ghost use Rattle.schema_model.specs.Limits.{most_rows};

use crate::LoadFault;
use crate::read::{next_record, reader_of};
use csv::ByteRecord;
use schema_model::{MOST_ATTRIBUTES, MOST_ROWS, Which};
use ss_text::{NoMemory, Row, Seed, Text};
use std::alloc::Global;
use std::collections::HashSet;

// What is wrong in a file. Records are counted from 1.
#[derive(Debug, Drop)]
pub(crate) enum FileFault {
    NoRecord,
    TooWide,
    Repeated { name: Text },
    OtherLength { nth: u64, want: usize, got: usize },
    TooMany,
}

/// What was read of a file: its records, where they have no fault, or its first fault.
#[derive(Debug, Drop)]
pub(crate) enum Judged {
    Sound { records: Vec<Row> },
    Refused { fault: FileFault },
}

// Reads the records of a file as far as they have no fault, where so many rows were counted before.
pub(crate) fn judged_records(
    alloc: Global,
    seed: Seed,
    bytes: &[u8],
    count: usize,
) -> Result<Judged, NoMemory>
    requires { count ≤ most_rows }
    ensures { IfOk result (λ judged. AreJudged count (records_of bytes.now) judged) }
{
    let mut reader = reader_of(alloc, bytes);
    let mut found = ByteRecord::new(alloc);
    let mut records = Vec::new(alloc);
    loop {
        let Some(row) = next_record(alloc, &mut reader, &mut found)? else {
            return Ok(all_read(records));
        };
        match next_fault(alloc, seed, count, &records, &row)? {
            Some(fault) => return Ok(Judged::Refused { fault }),
            None => records.push(row)?,
        }
    }
}

// All records of a file, of which none has a fault.
#[tactic(auto, unfolding(crate::specs::FileFaults::file_fault))]
fn all_read(records: Vec<Row>) -> Judged
    ensures { (count : ℕ) → fault_so_far count records.items ≡ None → AreJudged count records.items result }
{
    if records.is_empty() {
        let fault = FileFault::NoRecord;
        return Judged::Refused { fault };
    }
    Judged::Sound { records }
}

// The fault of the next record of a file, where those before it have none.
pub(crate) fn next_fault(
    alloc: Global,
    seed: Seed,
    count: usize,
    records: &[Row],
    row: &Row,
) -> Result<Option<FileFault>, NoMemory>
    requires { count + length records.now ≤ 1000001 }
    ensures { IfOk result (λ fault. fault ≡ next_fault count records.now row.now) }
{
    match records {
        [] => header_fault(alloc, seed, row),
        [header, rows @ ..] => Ok(row_fault(header.cells().len(), count, rows.len(), row)),
    }
}

// The fault of a row behind so many rows of its file: it has another length than the header, or is one too many.
fn row_fault(want: usize, count: usize, before: usize, row: &Row) -> Option<FileFault>
    requires { count + before ≤ most_rows }
    ensures { result ≡ row_fault want (2 + before) (count + before) row.now }
{
    let got = row.cells().len();
    if got != want {
        let nth = 2 + before as u64;
        return Some(FileFault::OtherLength { nth, want, got });
    }
    if count + before >= MOST_ROWS {
        return Some(FileFault::TooMany);
    }
    None
}

fn header_fault(alloc: Global, seed: Seed, header: &Row) -> Result<Option<FileFault>, NoMemory>
    ensures { IfOk result (λ fault. fault ≡ header_fault header.now) }
{
    if header.cells().len() > MOST_ATTRIBUTES {
        return Ok(Some(FileFault::TooWide));
    }
    match first_repeated(alloc, seed, header.cells())? {
        Some(name) => Ok(Some(FileFault::Repeated { name })),
        None => Ok(None),
    }
}

/// The name at the first place whose name stands earlier too. Names are hashed by a seed.
pub fn first_repeated(alloc: Global, seed: Seed, names: &[Text]) -> Result<Option<Text>, NoMemory>
    ensures { IfOk result (λ name. name ≡ first_repeated names.now) }
{
    let mut seen = HashSet::with_hasher(alloc, seed);
    for name in names {
        if !seen.insert(name)? {
            return Ok(Some(name.copy()?));
        }
    }
    Ok(None)
}

// A fault of a file, told with the names of the database and of the file.
pub(crate) fn told_fault(db: &Text, file: Text, fault: FileFault) -> Result<LoadFault, NoMemory>
    ensures { IfOk result (λ e. e ≡ told_fault db.now file fault) }
{
    let db = db.copy()?;
    Ok(match fault {
        FileFault::NoRecord => LoadFault::NoHeader { db, file },
        FileFault::TooWide => LoadFault::Limit {
            which: Which::Attributes,
        },
        FileFault::Repeated { name } => LoadFault::NameTwice { db, file, name },
        FileFault::OtherLength { nth, want, got } => LoadFault::Ragged {
            db,
            file,
            nth,
            want,
            got,
        },
        FileFault::TooMany => LoadFault::Limit { which: Which::Rows },
    })
}
