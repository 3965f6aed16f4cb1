//! What the first bytes of a file show of it, whatever follows them.
ghost use Rattle.std.specs.Prelude.{◌≡◌, ◌≤◌, ◌++◌, ℕ, List, Some, IfOk, IfSome, length};
ghost use Rattle.csv_catalog.specs.Records.{records_of};
ghost use Rattle.csv_catalog.specs.FileFaults.{file_fault};
ghost use Rattle.schema_model.specs.Limits.{most_rows};

use crate::judge::{FileFault, next_fault};
use crate::read::{next_record, reader_of};
use csv::ByteRecord;
use ss_text::{NoMemory, Seed, Text};
use std::alloc::Global;

// The first fault of each file that begins with these bytes, where so many rows were counted before and the bytes
// show it. Their last record shows nothing, since more of it may follow.
pub(crate) fn front_fault(
    alloc: Global,
    seed: Seed,
    front: Text,
    count: usize,
) -> Result<Option<FileFault>, NoMemory>
    requires few { count ≤ most_rows }
    requires long { 3 ≤ length front }
    ensures { IfOk result (λ fault. IfSome fault (λ f. (rest : List ℕ) → file_fault count (records_of (front ++ rest)) ≡ Some f)) }
{
    let mut reader = reader_of(alloc, front.as_slice());
    let mut found = ByteRecord::new(alloc);
    let mut records = Vec::new(alloc);
    loop {
        let Some(row) = next_record(alloc, &mut reader, &mut found)? else {
            return Ok(None);
        };
        if let Some(fault) = next_fault(alloc, seed, count, &records, &row)? {
            let Some(_) = next_record(alloc, &mut reader, &mut found)? else {
                return Ok(None);
            };
            return Ok(Some(fault));
        }
        records.push(row)?;
    }
}
